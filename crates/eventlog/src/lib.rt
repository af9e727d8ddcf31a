// The store of traces (document 01: of runs): its record, whether it is sound, its room, open and add.
#![tactic(auto)]

mod kept_traces;
mod sound_store;
mod words;

ghost use Rattle.std.specs.Prelude.{◌≡◌, ◌≤◌, ◌&&◌, [], ◌+◌, ◌%◌, not, eqb, ltb, length, map, position, IfOk};
ghost use Rattle.std.proofs.lemmas.List.Edits.{sets};
ghost use Rattle.base.specs.Checks.{gives, reply};
ghost use Rattle.answers.specs.Answers.{done_said, said_by};
ghost use Rattle.declare.specs.Traces.{most_activities, all_below};
ghost use Rattle.eventlog.specs.Calls.{Adds, checks_of_add, open_said, opened, Opens, with_trace};
ghost use Rattle.eventlog.specs.Store.{lent, last_end as last_end_of, last_kept, rising, sound, room, full as full_test};
ghost use Rattle.eventlog.specs.Words.{word_of};

use answers::{Reason, Refusal};
use declare::LONGEST_TRACE;
pub use kept_traces::{KeptParts, KeptTraces, KeptWords};
pub use sound_store::SoundStore;
use words::word_of;
pub use words::{bit_of, with_bit};

// The record: how many activities (document 01: steps, numbers below N) are declared, and how many traces are kept. C passes it as it is,
// and the traces are counted here and not by a length, since document 01 has ends lent with room to spare.
#[derive(Clone, Copy, Debug, PartialEq, Eq)]
#[repr(C)]
pub struct Store {
    pub activities: u32,
    pub traces: u32,
}

// The lengths of the three lent buffers: the events (01: kept steps) lie in the first, the ends of the traces in the second, their words
// (document 02: step words) in the third.
#[derive(Clone, Copy, Debug, PartialEq, Eq)]
pub struct Space {
    pub events: usize,
    pub ends: usize,
    pub words: usize,
}

// What is left in a store: the activities declared, the traces kept and their last end, and the space.
#[derive(Clone, Copy, Debug, PartialEq, Eq)]
pub struct Room {
    pub activities: u32,
    pub traces: u32,
    pub last: u32,
    pub space: Space,
}

pub const MOST_TRACES: u32 = 4095;

// The empty record for n declared activities.
pub fn open(n: u32) -> Result<Store, Refusal>
    ensures { (there : Store) → Opens n there (open_said result) (opened there result) }
{
    if !declare::declarable(n) {
        return Err(Reason::ActivitiesOutOfRange.into());
    }
    Ok(Store {
        activities: n,
        traces: 0,
    })
}

// The last kept end, 0 where there is none. Any record and slice may come in.
pub fn last_end(store: Store, ends: &[u32]) -> u32
    ensures { result ≡ last_kept store.traces ends.now }
{
    let kept = (store.traces as usize).min(ends.len());
    ends[..kept].last().copied().unwrap_or(0)
}

// Whether no end is below the one before it or more than 4096 above it.
fn ends_rise(ends: &[u32]) -> bool
    ensures { result ≡ rising 0 ends.now }
{
    let mut last = 0;
    for &end in ends {
        if end < last || LONGEST_TRACE < end - last {
            return false;
        }
        last = end;
    }
    true
}

// What a sound store asks of each trace: its events are declared, and the word beside it is its word. Each event is read once.
// By an event's lowest five bits, which are all of a declared one's, and with no jump for an event: so the compiler takes several at a time.
fn is_sound_trace(n: u32, trace: &[u8], word: u32) -> bool
    ensures { result ≡ (all_below n trace.now && eqb word (word_of (map (λ event. event % most_activities) trace.now))) }
{
    let mut declared = true;
    let mut made = 0;
    for &event in trace {
        declared &= u32::from(event) < n;
        made |= 1 << (event % 32);
    }
    declared && word == made
}

// The place, from 0, of the first undeclared event.
fn first_undeclared(n: u32, events: &[u8]) -> Option<usize>
    ensures { result ≡ position (λ event. not (ltb event n)) events.now }
{
    events.iter().position(|&event| n <= u32::from(event))
}

// Whether the record and the buffers are sound: one pass over the kept ends, and one over the kept traces with their words.
#[tactic(auto, unfolding(crate::specs::Store::sound, crate::specs::Store::last_end))]
pub fn is_sound(store: Store, events: &[u8], ends: &[u32], words: &[u32]) -> bool
    ensures { result ≡ sound (lent store events.now ends.now words.now) }
{
    let traces = store.traces as usize;
    if !declare::declarable(store.activities) || MOST_TRACES < store.traces {
        return false;
    }
    if ends.len() < traces || words.len() < traces {
        return false;
    }
    let n = store.activities;
    let kept = &ends[..traces];
    if !ends_rise(kept) || events.len() < last_end(store, ends) as usize {
        return false;
    }
    KeptTraces::cut(events, kept)
        .zip(words[..traces].iter())
        .all(|(trace, &word)| is_sound_trace(n, trace, word))
}

// What is left in a store. Any record and slices may come in.
pub fn room_of(store: Store, events: &[u8], ends: &[u32], words: &[u32]) -> Room
    ensures { result ≡ room (lent store events.now ends.now words.now) }
{
    Room {
        activities: store.activities,
        traces: store.traces,
        last: last_end(store, ends),
        space: Space {
            events: events.len(),
            ends: ends.len(),
            words: words.len(),
        },
    }
}

impl Room {
    // Whether no trace more can be kept.
    pub fn is_full(self) -> bool
        ensures { result ≡ full_test self }
    {
        let traces = self.traces as usize;
        self.traces == MOST_TRACES || traces == self.space.ends || traces == self.space.words
    }
}

// Where the events of a trace go that add accepts. Nothing is written before this is known.
fn place_for(
    store: Store,
    events: &[u8],
    ends: &[u32],
    words: &[u32],
    trace: &[u8],
) -> Result<usize, Refusal>
    ensures says { said_by (λ place. []) result ≡ reply (checks_of_add (lent store events.now ends.now words.now) trace.now) [] }
    ensures place { IfOk result (λ place. place ≡ last_end_of (lent store events.now ends.now words.now)) }
{
    let sound = SoundStore::new(store, events, ends, words).ok_or(Reason::NotSound)?;
    if let Some(place) = first_undeclared(store.activities, trace) {
        return Err(Reason::Undeclared.with(place + 1));
    }
    if (LONGEST_TRACE as usize) < trace.len() {
        return Err(Reason::TooLong.into());
    }
    let room = sound.room();
    if room.is_full() {
        return Err(Reason::Full.into());
    }
    let last = room.last as usize;
    if room.space.events - last < trace.len() {
        return Err(Reason::NoSpace.into());
    }
    Ok(last)
}

// By index: `copy_from_slice` calls memmove, which the archive for C would then need. All events and a place
// are lent, since a part of them would have to be said to be as long as the trace.
fn copy_in(events: &mut [u8], from: usize, trace: &[u8])
    requires { from + length trace.now ≤ length events.old }
    ensures { events.new ≡ sets events.old from trace.now }
{
    for i in 0..trace.len() {
        events[from + i] = trace[i];
    }
}

// Appends the events, the end and the word of a trace that add accepts, from the last kept end on. They are lent apart, as in `add`.
fn append(
    store: &mut Store,
    events: &mut [u8],
    ends: &mut [u32],
    words: &mut [u32],
    trace: &[u8],
    from: usize,
)
    requires accepted { gives [] ≡ reply (checks_of_add (lent store.old events.old ends.old words.old) trace.now) [] }
    requires place { from ≡ last_end_of (lent store.old events.old ends.old words.old) }
    ensures { lent store.new events.new ends.new words.new ≡ with_trace (lent store.old events.old ends.old words.old) trace.now }
{
    copy_in(events, from, trace);
    ends[store.traces as usize] = (from + trace.len()) as u32;
    words[store.traces as usize] = word_of(trace);
    store.traces += 1;
}

// Appends a trace. A refused call changes no byte.
// The record and its buffers are lent apart, as C lends them; one struct of these was tried (docs/DECISIONS.md, the store).
pub fn add(
    store: &mut Store,
    events: &mut [u8],
    ends: &mut [u32],
    words: &mut [u32],
    trace: &[u8],
) -> Result<(), Refusal>
    ensures { Adds (lent store.old events.old ends.old words.old) trace.now (done_said result)
        (lent store.new events.new ends.new words.new) }
{
    let from = place_for(*store, events, ends, words, trace)?;
    append(store, events, ends, words, trace, from);
    Ok(())
}
