// The replay of one constraint: over a trace, over a block of traces, and over all that it reads.
ghost use Rattle.std.specs.Prelude.{◌≡◌, ◌≤◌, ◌<◌, [], length, get_or};
ghost use Rattle.eventlog.specs.Store.{last_kept};
ghost use Rattle.eventlog.specs.SoundStore.{traces_in};
ghost use Rattle.pruning.specs.Question.{class_of};
ghost use Rattle.pruning.specs.Masks.{test_for};
ghost use Rattle.replay.specs.Replays.{moves_for};
ghost use Rattle.replay.specs.Blocks.{Selects, block};

use crate::Query;
use automata::Moves;
use declare::{Constraint, Verdict};
use eventlog::KeptParts;
use pruning::WordTest;

// So many traces are looked at together, by their words.
const BLOCK: usize = 64;

// A constraint, its moves, and the test by which the words tell which traces it reads.
#[derive(Clone, Copy)]
pub(crate) struct Replaying<'a> {
    pub(crate) constraint: Constraint,
    pub(crate) moves: &'a Moves,
    pub(crate) test: WordTest,
    ghost moved: { moves.now ≡ moves_for constraint },
    ghost tested: { test ≡ test_for (class_of constraint.template) constraint.a constraint.b },
}

// Of one trace: whether it is fulfilled, and how many events have been read, its own counted.
#[derive(Clone, Copy)]
struct OfTrace {
    is_fulfilled: bool,
    events_read: u64,
}

// Of all so far: how many are fulfilled, and how many events have been read.
#[derive(Clone, Copy)]
pub(crate) struct OfTraces {
    pub(crate) fulfilled: u32,
    pub(crate) events_read: u64,
}

// The place of a trace that is not read, and what the traces before it came to.
#[derive(Clone, Copy)]
struct Front {
    place: usize,
    all: OfTraces,
}

// The end before a place, from 0.
fn end_before(ends: &[u32], k: usize) -> u32
    requires { k ≤ length ends.now }
    ensures { result ≡ last_kept k ends.now }
{
    if k == 0 { 0 } else { ends[k - 1] }
}

// The kept trace of a place: the part of the events from the end before to its own.
fn trace<'a>(kept: KeptParts<'a>, k: usize) -> &'a [u8]
    requires { k < length kept.ends.now }
    ensures { result.now ≡ get_or (traces_in kept.entry) k [] }
{
    let from = end_before(kept.ends, k);
    &kept.events[from as usize..kept.ends[k] as usize]
}

// The places of the words that pass, at the front of an array, and how many they are.
// Each place is written, and where its word does not pass the next one goes over it: a jump for each could not be foretold where they come at random.
fn select(words: &[u32], test: WordTest, places: &mut [u8; BLOCK]) -> usize
    requires { length words.now ≤ block }
    ensures { Selects test words.now result places.new }
{
    let mut n = 0;
    for k in 0..words.len() {
        places[n] = k as u8;
        n += usize::from(test.passes(words[k]));
    }
    n
}

impl<'a> Replaying<'a> {
    ghost use Rattle.std.specs.Prelude.{◌≡◌, ◌+◌, ◌<◌, ◌≤◌, true, length, map, take, drop};
    ghost use Rattle.std.specs.List.{filter, list_all};
    ghost use Rattle.eventlog.specs.SoundStore.{traces_in};
    ghost use Rattle.pruning.specs.Question.{reads};
    ghost use Rattle.replay.specs.Replays.{ReplaysTrace};
    ghost use Rattle.replay.specs.Blocks.{ReplaysAll, ReplaysFront, Countable, Block, block_of, places_in, Readable};

    // One trace, handed to the replayer as a part of the events. Only what the constraint reads may be replayed.
    fn over_trace(self, trace: &[u8], events_read: u64) -> OfTrace
        requires read { reads self.constraint trace.now ≡ true }
        requires fits { events_read + length trace.now < 18446744073709551616 }
        ensures { ReplaysTrace self.entry.constraint trace.now events_read result }
    {
        OfTrace {
            is_fulfilled: self.moves.verdict(trace) == Verdict::Fulfilled,
            events_read: events_read + trace.len() as u64,
        }
    }

    // The traces of these places, behind so many: it reads each.
    fn over_places(self, query: Query, from: usize, places: &[u8], before: OfTraces) -> OfTraces
        requires read { list_all (reads self.constraint) (places_in query from places.now) ≡ true }
        requires countable { Countable before (places_in query from places.now) }
        ensures { ReplaysAll self.entry.constraint (places_in query.entry from places.now) before result }
    {
        let mut all = before;
        for &place in places {
            let one = self.over_trace(
                trace(query.kept, from + usize::from(place)),
                all.events_read,
            );
            all.fulfilled += u32::from(one.is_fulfilled);
            all.events_read = one.events_read;
        }
        all
    }

    // The first traces, as long as it reads them.
    fn over_front(self, query: Query, events_read: u64) -> Front
        requires { Readable query self.constraint events_read }
        ensures { ReplaysFront query.entry self.entry.constraint events_read result }
    {
        let mut all = OfTraces {
            fulfilled: 0,
            events_read,
        };
        for k in 0..query.kept.words.len() {
            if !self.test.passes(query.kept.words[k]) {
                return Front { place: k, all };
            }
            let one = self.over_trace(trace(query.kept, k), all.events_read);
            all.fulfilled += u32::from(one.is_fulfilled);
            all.events_read = one.events_read;
        }
        Front {
            place: query.kept.words.len(),
            all,
        }
    }

    // A block of traces: those that it reads are selected, and then replayed.
    fn over_block(self, query: Query, from: usize, to: usize, before: OfTraces) -> OfTraces
        requires { Block query self.constraint from to before }
        ensures { ReplaysAll self.entry.constraint (filter (reads self.entry.constraint) (block_of query.entry from to)) before result }
    {
        let mut places = [0; BLOCK];
        let n = select(&query.kept.words[from..to], self.test, &mut places);
        self.over_places(query, from, &places[..n], before)
    }

    // All traces of a query: those that it reads. The first one after the other, and from the first on that it does not read block after block.
    pub(crate) fn over(self, query: Query, events_read: u64) -> OfTraces
        requires { Readable query self.constraint events_read }
        ensures { ReplaysAll self.entry.constraint (filter (reads self.entry.constraint) (traces_in query.entry.kept))
            (record { fulfilled = 0; events_read = events_read }) result }
    {
        let Front { place, mut all } = self.over_front(query, events_read);
        let mut from = place;
        while from < query.kept.words.len() {
            let to = query.kept.words.len().min(from + BLOCK);
            all = self.over_block(query, from, to, all);
            from = to;
        }
        all
    }
}
