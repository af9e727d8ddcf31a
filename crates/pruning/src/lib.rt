// What a find is measured by, which constraints pruning keeps, and how many traces activate one: by the words of traces alone. No event and no
// replayer can be reached from here.
#![tactic(auto)]

mod pairs;
mod walk;

ghost use Rattle.std.specs.Prelude.{◌≡◌, ◌%◌};
ghost use Rattle.base.specs.Lists.{count};
ghost use Rattle.eventlog.specs.Words.{bit_of};
ghost use Rattle.pruning.specs.Question.{threshold_in_range, confidence_in_range, confident, meets, class_of};
ghost use Rattle.pruning.specs.Masks.{just, some_of, traces_by, support_by, test_for, passes};

use eventlog::KeptWords;
pub use pairs::PairSupport;
pub use walk::Walk;

pub const MOST_THRESHOLD: u32 = 1000;

pub const MOST_CONFIDENCE: u32 = 1000;

// What a find is asked by, both in thousandths: the threshold (in the field: support) and the confidence (document 02: k).
#[derive(Clone, Copy, Debug, PartialEq, Eq)]
pub struct Settings {
    pub threshold: u32,
    pub confidence: u32,
}

impl Settings {
    // Whether the threshold is one: 1 to 1000.
    pub fn threshold_in_range(self) -> bool
        ensures { result ≡ threshold_in_range self }
    {
        1 <= self.threshold && self.threshold <= MOST_THRESHOLD
    }

    // Whether the confidence is one: 0 to 1000.
    pub fn confidence_in_range(self) -> bool
        ensures { result ≡ confidence_in_range self }
    {
        self.confidence <= MOST_CONFIDENCE
    }

    // 1000 times the fulfilled traces are at least the confidence times the activated ones; nothing is rounded.
    pub fn confident(self, fulfilled: u32, activated: u32) -> bool
        ensures { result ≡ confident self fulfilled activated }
    {
        u64::from(self.confidence) * u64::from(activated) <= 1000 * u64::from(fulfilled)
    }
}

// What constraints and their counts are measured by: N, the settings, and R, the traces of length 1 or more.
#[derive(Clone, Copy, Debug, PartialEq, Eq)]
pub struct Measure {
    pub activities: u32,
    pub settings: Settings,
    pub traces: u32,
}

impl Measure {
    // 1000 times the number is at least the threshold times R; nothing is rounded.
    pub fn meets(self, number: u32) -> bool
        ensures { result ≡ meets self number }
    {
        u64::from(self.settings.threshold) * u64::from(self.traces) <= 1000 * u64::from(number)
    }
}

// The classes of pruning: by the traces with a, by all of them, by those with a or b, by those with both.
#[derive(Clone, Copy, Debug, PartialEq, Eq)]
pub enum Class {
    WithA,
    All,
    Either,
    Both,
}

impl Class {
    // The template's number settles the class; a number that is no template's is in the last one.
    pub fn of(template: u8) -> Class
        ensures { result ≡ class_of template }
    {
        match template {
            1..=3 | 7..=8 => Class::WithA,
            4..=6 => Class::All,
            9..=10 | 12 | 23..=24 => Class::Either,
            _ => Class::Both,
        }
    }
}

// An activity's bit, and no test whether there is one.
fn bit(activity: u8) -> u32
    ensures { result ≡ bit_of (activity % 32) }
{
    1 << (activity % 32)
}

// Which traces count for a class, told by their words: what a word has of the mask is at least a number. That is 1 for some of the bits, and the mask
// for all of them: one comparison, whatever the class.
#[derive(Clone, Copy)]
pub struct WordTest {
    mask: u32,
    least: u32,
}

impl WordTest {
    // By two activities, taken by their remainder by 32. In the class of the traces with a, b is a. The word of a trace of length 1 or more has some
    // bit.
    pub fn of(class: Class, a: u8, b: u8) -> WordTest
        ensures { result ≡ test_for class a b }
    {
        let mask = if class == Class::All {
            u32::MAX
        } else {
            bit(a) | bit(b)
        };
        WordTest {
            mask,
            least: if class == Class::Both { mask } else { 1 },
        }
    }

    pub fn passes(self, word: u32) -> bool
        ensures { result ≡ passes self word }
    {
        self.least <= word & self.mask
    }
}

// How many of the words have just these of a mask's bits.
// Added up, and not filtered and counted: the compiler then takes several words at a time.
fn masked(words: KeptWords, mask: u32, bits: u32) -> u32
    ensures { result ≡ count (just mask bits) words.entry.words.now }
{
    words
        .words
        .iter()
        .map(|&word| u32::from(word & mask == bits))
        .sum()
}

// How many have one of these bits, at least: all but those with none.
fn with_some(words: KeptWords, bits: u32) -> u32
    ensures { result ≡ count (some_of bits) words.entry.words.now }
{
    words.words.len() as u32 - masked(words, bits, 0)
}

// R: how many kept traces are of length 1 or more. An empty one's word has no bit.
pub fn trace_count(words: KeptWords) -> u32
    ensures { result ≡ traces_by words.entry.words.now }
{
    with_some(words, u32::MAX)
}

// How many kept traces of length 1 or more count for a class, by two activities: asked for declared ones, whose bits are in every mask.
fn support(words: KeptWords, class: Class, a: u8, b: u8) -> u32
    ensures { result ≡ support_by class words.entry.words.now a b }
{
    let (a, b) = (eventlog::bit_of(a), eventlog::bit_of(b));
    match class {
        Class::WithA => with_some(words, a),
        Class::All => trace_count(words),
        Class::Either => with_some(words, a | b),
        Class::Both => masked(words, a | b, a | b),
    }
}
