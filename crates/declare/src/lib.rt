// Activities and traces (document 01: steps and runs), and what the DECLARE templates mean on one trace. The constraints of all
// templates are in a module that is public so that other crates can cite the laws below it.
#![tactic(auto)]

pub mod constraints;

ghost use Rattle.std.specs.Prelude.{◌≡◌};
ghost use Rattle.declare.specs.Traces.{declarable as declarable_test};

pub use constraints::{Constraint, constraint_count};

pub const MOST_ACTIVITIES: u32 = 32;

pub const LONGEST_TRACE: u32 = 4096;

// Whether so many activities (document 01: steps, numbers below N) can be declared.
pub fn declarable(n: u32) -> bool
    ensures { result ≡ declarable_test n }
{
    1 <= n && n <= MOST_ACTIVITIES
}

// What a trace is for a constraint (document 01: a run for a rule): fulfilled, not activated (01: idle), or violated (01: broken).
#[derive(Clone, Copy, Debug, PartialEq, Eq)]
pub enum Verdict {
    Fulfilled,
    NotActivated,
    Violated,
}
