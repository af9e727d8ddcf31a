// Discovery (document 01: finding) over a store of traces: what pruning keeps is replayed, and what meets the threshold and the confidence is listed.
#![tactic(auto)]

mod list;
mod row;

ghost use Rattle.std.specs.Prelude.{◌≡◌, []};
ghost use Rattle.base.specs.Checks.{reply};
ghost use Rattle.answers.specs.Answers.{done_said};
ghost use Rattle.eventlog.specs.Store.{lent};
ghost use Rattle.discovery.specs.Calls.{settings_checks, Finds, find_said};

use answers::{Reason, Refusal};
use eventlog::{SoundStore, Store};
use list::{look, pass};
use pruning::Settings;
use replay::Query;
pub use row::{Counts, NUMBERS, Row};

// The constraints listed, those replayed, R (how many kept traces are of length 1 or more), and how many events were handed to replayers, taking
// each constraint once. They are at most 14,144 constraints times 4095 traces of 4096 events, more than 32 bits hold.
#[derive(Clone, Copy, Debug, PartialEq, Eq)]
pub struct Found {
    pub constraints: u32,
    pub replayed: u32,
    pub traces: u32,
    pub events_read: u64,
}

// Whether a find can be asked by these settings: the threshold is looked at first, and then the confidence.
pub fn check(settings: Settings) -> Result<(), Refusal>
    ensures { done_said result ≡ reply (settings_checks settings) [] }
{
    if !settings.threshold_in_range() {
        return Err(Reason::ThresholdOutOfRange.into());
    }
    if !settings.confidence_in_range() {
        return Err(Reason::ConfidenceOutOfRange.into());
    }
    Ok(())
}

// Document 01's find, over any record, buffers, settings and slice. What is needed is known before the first number is written.
// The record and its buffers are lent apart, as C lends them.
pub fn find(
    store: Store,
    events: &[u8],
    ends: &[u32],
    words: &[u32],
    settings: Settings,
    list: &mut [u16],
) -> Result<Found, Refusal>
    ensures { Finds (lent store events.now ends.now words.now) settings list.old (find_said result) list.new }
{
    let sound = SoundStore::new(store, events, ends, words).ok_or(Reason::NotSound)?;
    check(settings)?;
    let query = Query::new(sound, settings);
    if query.measure.traces == 0 {
        return Err(Reason::NoTrace.into());
    }
    look(query, list)?;
    let tally = pass(query, list);
    Ok(Found {
        constraints: tally.listed,
        replayed: tally.replayed,
        traces: query.measure.traces,
        events_read: tally.events_read,
    })
}
