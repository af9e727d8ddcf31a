// The one walk over the constraints: over those that pruning keeps, in their order, template, then a, then b.
ghost use Rattle.std.specs.Prelude.{◌≤◌, ◌<◌, ◌-◌};
ghost use Rattle.declare.specs.Traces.{most_activities};
ghost use Rattle.pruning.specs.Masks.{Partners};

use crate::{Class, PairSupport, bit};
use declare::{Constraint, MOST_ACTIVITIES};

// Where it stands: at a template and an a, with the bs that are still to come beside it, as a word.
// What is dropped beside an a is passed over at once, and not one by one: of many logs that is most.
#[derive(Drop)]
pub struct Walk<'a> {
    activities: u8,
    pairs: &'a PairSupport,
    template: u8,
    a: u8,
    rest: u32,
    ghost few: { activities ≤ most_activities },
    ghost a_declared: { a ≤ activities - 1 },
}

// The activities that a template takes beside an a, as a word.
fn partners(activities: u8, template: u8, a: u8) -> u32
    requires few { activities ≤ most_activities }
    requires a_few { a < most_activities }
    ensures { Partners activities template a result }
{
    let declared = ((1u64 << activities) - 1) as u32;
    let own = bit(a);
    match template {
        0..=8 => declared & own,
        9..=12 => declared & !(own | (own - 1)),
        _ => declared & !own,
    }
}

impl<'a> Walk<'a> {
    ghost use Rattle.std.specs.Prelude.{◌≡◌, min};
    ghost use Rattle.std.specs.List.{filter};
    ghost use Rattle.declare.specs.Traces.{most_activities};
    ghost use Rattle.declare.specs.Constraints.{constraints};
    ghost use Rattle.pruning.specs.Walk.{keeps, left, Stands, MovesOn};

    // Over those of so many activities, 32 at most, that pairs keep by their support.
    pub fn over(activities: u8, pairs: &'a PairSupport) -> Walk<'a>
        ensures { left result ≡ filter (keeps pairs.now) (constraints (min activities most_activities)) }
    {
        let mut walk = Walk {
            activities: activities.min(MOST_ACTIVITIES as u8),
            pairs,
            template: 1,
            a: 0,
            rest: 0,
        };
        walk.stand();
        walk
    }

    // All that is kept on its template and a is still to come.
    fn stand(&mut self)
        ensures { Stands self.old self.new }
    {
        let class = Class::of(self.template);
        self.rest = self.pairs.beside(class, self.a)
            & partners(self.activities, self.template, self.a);
    }

    // On to the next a, or to the next template, if there is one.
    fn move_on(&mut self) -> bool
        ensures { MovesOn self.old self.new result }
    {
        if self.a + 1 < self.activities {
            self.a += 1;
        } else if self.template < 24 {
            self.template += 1;
            self.a = 0;
        } else {
            return false;
        }
        self.stand();
        true
    }
}

impl<'a> Iterator for Walk<'a> {
    ghost use Rattle.std.specs.Iterator.{YieldsFirst, item_count};
    ghost use Rattle.pruning.specs.Walk.{left};

    type Item = Constraint;

    ghost next_gives = { YieldsFirst left };

    ghost remaining = { item_count left };

    fn next(&mut self) -> Option<Constraint> {
        while self.rest == 0 {
            if !self.move_on() {
                return None;
            }
        }
        let b = self.rest.trailing_zeros() as u8;
        self.rest &= !bit(b);
        Some(Constraint {
            template: self.template,
            a: self.a,
            b,
        })
    }
}
