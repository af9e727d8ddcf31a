// What is counted of pairs of activities, once a find.
// Each two are counted in either order, and not for each constraint: many templates ask for the same.
ghost use Rattle.std.specs.Prelude.{◌≡◌, ◌%◌, min};
ghost use Rattle.declare.specs.Traces.{most_activities};
ghost use Rattle.base.proofs.Stores.{filled};
ghost use Rattle.pruning.specs.Masks.{support_by, companions_by};

use crate::{Class, Measure, support};
use declare::{Constraint, MOST_ACTIVITIES};
use eventlog::KeptWords;

// Counts how many traces count for a class by an activity and each declared one, and gives those with which that meets the threshold, as a word.
fn companions(
    measure: Measure,
    words: KeptWords,
    class: Class,
    a: u8,
    counts: &mut [u16; 32],
) -> u32
    ensures counted { counts.new ≡ filled (support_by class words.entry.words.now a) (min measure.activities most_activities) counts.old }
    ensures frequent { result ≡ companions_by class measure words.entry.words.now a }
{
    let mut frequent = 0;
    for b in 0..measure.activities.min(MOST_ACTIVITIES) as u8 {
        let count = support(words, class, a, b);
        counts[usize::from(b)] = count as u16;
        if measure.meets(count) {
            frequent = eventlog::with_bit(frequent, b);
        }
    }
    frequent
}

// How many traces have one of two activities at least, and with which each makes a frequent pair: their support, by the traces with one of the two
// and by those with both, meets the threshold.
// It is asked for two classes alone: the traces with a are those with one of a and a, and the class of all is kept always.
#[derive(Drop)]
pub struct PairSupport {
    with_either: [[u16; 32]; 32],
    either: [u32; 32],
    both: [u32; 32],
}

impl PairSupport {
    ghost use Rattle.pruning.specs.Masks.{no_pair, counted_by, beside_in, with_either_in, activated_by};

    // No pair so far.
    pub fn none() -> PairSupport
        ensures { result ≡ no_pair }
    {
        PairSupport {
            with_either: [[0; 32]; 32],
            either: [0; 32],
            both: [0; 32],
        }
    }

    // Counts them. In place: what is handed back would be copied by memcpy, which the archive for C would then need.
    pub fn count(&mut self, measure: Measure, words: KeptWords)
        ensures { self.new ≡ counted_by measure words.entry.words.now self.old }
    {
        let mut with_both = [0; 32];
        for a in 0..measure.activities.min(MOST_ACTIVITIES) as u8 {
            let place = usize::from(a);
            let with_either = &mut self.with_either[place];
            self.either[place] = companions(measure, words, Class::Either, a, with_either);
            // Where a alone falls short, so does each pair with it (document 01: the Apriori step).
            self.both[place] = if measure.meets(self.with_either(a, a)) {
                companions(measure, words, Class::Both, a, &mut with_both)
            } else {
                0
            };
        }
    }

    // The activities with which pruning keeps a constraint on a whose template is of this class, as a word. In the class of the traces with a, b is
    // a, so these are the traces with a or b. Activities are taken by their remainder by 32.
    pub fn beside(&self, class: Class, a: u8) -> u32
        ensures { result ≡ beside_in self.now class a }
    {
        let place = usize::from(a % 32);
        match class {
            Class::All => u32::MAX,
            Class::Both => self.both[place],
            _ => self.either[place],
        }
    }

    // How many traces have one of two activities, at least.
    fn with_either(&self, a: u8, b: u8) -> u32
        ensures { result ≡ with_either_in self.now a b }
    {
        u32::from(self.with_either[usize::from(a % 32)][usize::from(b % 32)])
    }

    // How many traces of length 1 or more activate a constraint, R being all of them.
    pub fn activated(&self, traces: u32, c: Constraint) -> u32
        ensures { result ≡ activated_by self.now traces c }
    {
        match c.template {
            1..=10 => traces,
            13..=16 => self.with_either(c.a, c.a),
            17..=19 => self.with_either(c.b, c.b),
            _ => self.with_either(c.a, c.b),
        }
    }
}
