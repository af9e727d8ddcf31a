// How far a log is read, in the room that it is read into.
ghost use Rattle.std.specs.Prelude.{◌≤◌};
ghost use Rattle.declare.specs.Traces.{most_activities};
ghost use Rattle.columns.specs.Survey.{Bounded};

use crate::{Entry, Progress};
use answers::Reason;
use declare::LONGEST_TRACE;
use eventlog::{Room, SoundStore};

// The room that there was before the first line, and the numbers of the lines so far, which stay in its bounds.
#[derive(Clone, Copy)]
pub(crate) struct Reading {
    pub(crate) room: Room,
    pub(crate) at: Progress,
    ghost few_activities: { room.activities ≤ most_activities },
    ghost in_bounds: { Bounded room at },
}

impl Reading {
    ghost use Rattle.std.specs.Prelude.{◌≡◌, Ok, Err, MatchResult};
    ghost use Rattle.eventlog.specs.Store.{room as room_in};
    ghost use Rattle.eventlog.specs.SoundStore.{memory_of};
    ghost use Rattle.columns.specs.Log.{line_of};
    ghost use Rattle.columns.specs.Survey.{at_start, entry_of, fault_of, next_progress, room_at, step_of, placed_of};

    // Before the first line.
    pub(crate) fn start(store: SoundStore) -> Reading
        ensures room { result.room ≡ room_in (memory_of store.entry) }
        ensures at { result.at ≡ at_start (room_in (memory_of store.entry)) }
    {
        let room = store.room();
        Reading {
            room,
            at: Progress {
                number: 0,
                left: 0,
                added: 0,
                last: room.last,
            },
        }
    }

    // The room that is left so far.
    fn room_left(self) -> Room
        ensures { result ≡ room_at self.room self.at }
    {
        Room {
            traces: self.room.traces + self.at.added,
            last: self.at.last,
            ..self.room
        }
    }

    // Whether one event more has its place.
    fn placed(self) -> Result<(), Reason>
        ensures { result ≡ placed_of self.room self.at }
    {
        if self.room.space.events <= self.at.last as usize {
            return Err(Reason::NoSpace);
        }
        Ok(())
    }

    // What a laid-out line is refused for.
    fn fault(self, entry: Entry) -> Result<(), Reason>
        ensures { result ≡ fault_of self.room self.at entry }
    {
        if entry.number < self.at.number {
            return Err(Reason::NumberFalls);
        }
        if self.room.activities <= entry.activity {
            return Err(Reason::Undeclared);
        }
        if entry.number == self.at.number {
            if self.at.left == 0 {
                return Err(Reason::TooLong);
            }
        } else if self.room_left().is_full() {
            return Err(Reason::Full);
        }
        self.placed()
    }

    // One laid-out line on.
    pub(crate) fn next(self, entry: Entry) -> Reading
        requires { fault_of self.room self.at entry ≡ Ok tt }
        ensures room { result.room ≡ self.room }
        ensures at { result.at ≡ next_progress self.at entry.number }
    {
        let before = self.at;
        let at = if entry.number == before.number {
            Progress {
                left: before.left - 1,
                last: before.last + 1,
                ..before
            }
        } else {
            Progress {
                number: entry.number,
                left: LONGEST_TRACE - 1,
                added: before.added + 1,
                last: before.last + 1,
            }
        };
        // Field by field: `..self` is refused for a struct with a ghost field.
        Reading {
            room: self.room,
            at,
        }
    }

    // One line: how far the log is read after it, or what it is refused for.
    pub(crate) fn take(self, line: &[u8]) -> Result<Reading, Reason>
        ensures { MatchResult result
            (λ after. (after.room ≡ self.room) × (step_of self.room self.at (entry_of (line_of line.now)) ≡ Ok after.at))
            (λ reason. step_of self.room self.at (entry_of (line_of line.now)) ≡ Err reason) }
    {
        let entry = crate::read_line(line).ok_or(Reason::Malformed)?;
        self.fault(entry)?;
        Ok(self.next(entry))
    }
}
