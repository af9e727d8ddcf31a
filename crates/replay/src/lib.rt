// Replay of a constraint over the store's traces. Pruning comes to no replayer, and discovery to one through `replay` alone, which requires that
// the query it is handed keeps the constraint.
#![tactic(auto)]

mod query;
mod replaying;

ghost use Rattle.std.specs.Prelude.{◌≡◌};
ghost use Rattle.replay.specs.Query.{asked_by};
ghost use Rattle.replay.specs.Replays.{Replayable, Replays};

use automata::{Automaton, Moves};
use declare::Constraint;
use pruning::{Class, WordTest};
pub use query::Query;
use replaying::Replaying;

// A constraint's fulfilled traces, how many constraints have been replayed, and how many events they have read, this one counted in both. The
// second has 64 bits, in which one more than any 32-bit number fits.
#[derive(Clone, Copy, Debug, PartialEq, Eq)]
pub struct Replayed {
    pub fulfilled: u32,
    pub replayed: u64,
    pub events_read: u64,
}

// Replays a constraint over the store. Only what pruning keeps may be replayed. Its moves and the test of words are made once for all its traces.
pub fn replay(query: Query, c: Constraint, replayed: u32, events_read: u64) -> Replayed
    requires { Replayable (asked_by query) c events_read }
    ensures { Replays (asked_by query.entry) c replayed events_read result }
{
    let mut moves = Moves::none();
    moves.set(Automaton::of(c.template), c.a, c.b);
    let replaying = Replaying {
        constraint: c,
        moves: &moves,
        test: WordTest::of(Class::of(c.template), c.a, c.b),
    };
    let all = replaying.over(query, events_read);
    Replayed {
        fulfilled: all.fulfilled,
        replayed: u64::from(replayed) + 1,
        events_read: all.events_read,
    }
}
