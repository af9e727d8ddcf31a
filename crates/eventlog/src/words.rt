// A trace's word: which activities occur in it (document 02: a run's step word).
ghost use Rattle.std.specs.Prelude.{◌≡◌};
ghost use Rattle.eventlog.specs.Words.{word_of as word, bit_of, with_bit};

use declare::MOST_ACTIVITIES;

// The word of a trace of this activity alone. An activity from 32 on has no bit: none can be declared.
pub fn bit_of(activity: u8) -> u32
    ensures { result ≡ bit_of activity }
{
    if u32::from(activity) < MOST_ACTIVITIES {
        1 << activity
    } else {
        0
    }
}

// A word with one activity's bit: that of a trace with one event more.
pub fn with_bit(word: u32, activity: u8) -> u32
    ensures { result ≡ with_bit word activity }
{
    word | bit_of(activity)
}

pub(crate) fn word_of(trace: &[u8]) -> u32
    ensures { result ≡ word trace.now }
{
    trace.iter().fold(0, |word, &event| with_bit(word, event))
}
