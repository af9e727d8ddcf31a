// The constraints over the activities below some number.
ghost use Rattle.std.specs.Prelude.{◌≡◌, length};
ghost use Rattle.declare.specs.Constraints.{constraints};

// A constraint (document 01: a rule): a template's number and its activities.
// A number and no enum: document 01 settles the class by ranges of it, and the list and the tables take it as it is.
#[derive(Clone, Copy, Debug, PartialEq, Eq)]
pub struct Constraint {
    pub template: u8,
    pub a: u8,
    pub b: u8,
}

// How many constraints there are.
#[tactic(auto, using(crate::proofs::constraints::Members::constraints_number))]
pub fn constraint_count(activities: u8) -> u32
    ensures { result ≡ length (constraints activities) }
{
    let n = u32::from(activities);
    14 * n * n - 6 * n
}
