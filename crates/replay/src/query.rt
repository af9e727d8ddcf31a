// What a find asks of a store that is known to be sound.
ghost use Rattle.std.specs.Prelude.{◌≡◌, ◌≤◌, true, length};
ghost use Rattle.std.specs.List.{filter, list_all};
ghost use Rattle.base.specs.Lists.{non_empty};
ghost use Rattle.declare.specs.Traces.{most_activities, all_below};
ghost use Rattle.eventlog.specs.SoundStore.{traces_in};

use eventlog::{KeptParts, SoundStore};
use pruning::{Measure, Settings};

// What the store keeps, and the measure, for which R is counted once a find.
#[derive(Clone, Copy)]
pub struct Query<'a> {
    pub kept: KeptParts<'a>,
    pub measure: Measure,
    ghost counted: { measure.traces ≡ length (filter non_empty (traces_in kept)) },
    ghost few_activities: { measure.activities ≤ most_activities },
    ghost declared: { list_all (all_below measure.activities) (traces_in kept) ≡ true },
}

impl<'a> Query<'a> {
    ghost use Rattle.std.specs.Prelude.{◌≡◌};
    ghost use Rattle.eventlog.specs.Store.{kept};
    ghost use Rattle.eventlog.specs.SoundStore.{memory_of, traces_in};
    ghost use Rattle.pruning.specs.Question.{asked, measure_of};

    pub fn new(sound: SoundStore<'a>, settings: Settings) -> Query<'a>
        ensures kept { traces_in result.kept ≡ kept (memory_of sound.entry) }
        ensures measure { result.measure ≡ measure_of (asked (memory_of sound.entry) settings) }
    {
        let kept = sound.kept();
        Query {
            kept,
            measure: Measure {
                activities: sound.store.activities,
                settings,
                traces: pruning::trace_count(kept.words()),
            },
        }
    }
}
