// The list: passing over the constraints, and entering those to be listed.
ghost use Rattle.std.specs.Prelude.{◌≡◌, [], ◌∷◌, length};
ghost use Rattle.declare.specs.Constraints.{constraints};
ghost use Rattle.pruning.specs.Question.{activations};
ghost use Rattle.pruning.specs.Masks.{activated_by};
ghost use Rattle.discovery.specs.Listing.{lists, listed};
ghost use Rattle.replay.specs.Query.{asked_by};
ghost use Rattle.replay.specs.Replays.{Replayable};
ghost use Rattle.discovery.specs.Passes.{Passes, Considers, TallyFits, none_yet, fit_of};

use crate::row::{Counts, NUMBERS, write};
use answers::{Reason, Refusal};
use declare::Constraint;
use pruning::{Measure, PairSupport, Walk};
use replay::{Query, replay};

// How many constraints so far are listed, how many were replayed, and how many events they have read.
#[derive(Clone, Copy, Debug, PartialEq, Eq)]
pub struct Tally {
    pub listed: u32,
    pub replayed: u32,
    pub events_read: u64,
}

// Whether a constraint of these counts is listed: they meet the threshold, and the confidence.
fn lists(measure: Measure, counts: Counts) -> bool
    ensures { result ≡ lists measure counts }
{
    let fulfilled = u32::from(counts.fulfilled);
    let activated = u32::from(counts.activated);
    measure.meets(fulfilled) && measure.settings.confident(fulfilled, activated)
}

// Enters a constraint of known counts, wherever they come from: it is written where they list it. How many are listed then has 64 bits, in which
// one more than any 32-bit number fits.
fn enter(measure: Measure, c: Constraint, counts: Counts, listed: u32, list: &mut [u16]) -> u64
    ensures { Passes measure (λ c. counts) (c ∷ []) listed list.old result list.new }
{
    if !lists(measure, counts) {
        return u64::from(listed);
    }
    write(list, listed, c, counts);
    u64::from(listed) + 1
}

// Passes over a constraint that pruning keeps: it is replayed, and entered with its counts. Those in which it is activated are known without replay.
fn consider(
    query: Query,
    pairs: &PairSupport,
    c: Constraint,
    tally: Tally,
    list: &mut [u16],
) -> Tally
    requires replayable { Replayable (asked_by query) c tally.events_read }
    requires counted { activated_by pairs.now query.measure.traces c ≡ activations (asked_by query).traces c }
    requires tally_fits { TallyFits query.measure.activities tally }
    ensures { Considers (asked_by query.entry) (c ∷ []) tally list.old result list.new }
{
    let replayed = replay(query, c, tally.replayed, tally.events_read);
    let counts = Counts {
        fulfilled: replayed.fulfilled as u16,
        activated: pairs.activated(query.measure.traces, c) as u16,
    };
    Tally {
        listed: enter(query.measure, c, counts, tally.listed, list) as u32,
        replayed: replayed.replayed as u32,
        events_read: replayed.events_read,
    }
}

// Passes over all constraints in their order: counts those listed and replayed, and writes the list as far as the slice goes. What pruning
// drops is not replayed, and not gone over.
pub(crate) fn pass(query: Query, list: &mut [u16]) -> Tally
    ensures { Considers (asked_by query.entry) (constraints query.entry.measure.activities) none_yet list.old result list.new }
{
    let mut tally = Tally {
        listed: 0,
        replayed: 0,
        events_read: 0,
    };
    let mut pairs = PairSupport::none();
    pairs.count(query.measure, query.kept.words());
    for c in Walk::over(query.measure.activities as u8, &pairs) {
        tally = consider(query, &pairs, c, tally, list);
    }
    tally
}

// Looks whether the list fits, and leaves the slice as it was. Where there is room for all constraints, nothing is replayed for it.
pub(crate) fn look(query: Query, list: &mut [u16]) -> Result<(), Refusal>
    ensures fit { result ≡ fit_of (length (listed (asked_by query.entry))) list.old }
    ensures list_unchanged { list.new ≡ list.old }
{
    let all = declare::constraint_count(query.measure.activities as u8);
    if all as usize <= list.len() / NUMBERS {
        return Ok(());
    }
    let needed = pass(query, &mut list[0..0]);
    let listed = needed.listed as usize;
    if list.len() < NUMBERS * listed {
        return Err(Reason::ListTooShort.with(listed));
    }
    Ok(())
}
