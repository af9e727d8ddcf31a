// Watching a trace while it grows (document 02, request 3): for each of at most 256 constraints whether it holds so far, and whether that can
// still change.
#![tactic(auto)]

mod table;

ghost use Rattle.std.specs.Prelude.{◌≡◌, ℕ, [], ◌∷◌, ◌+◌, ◌-◌, ◌*◌, ◌/◌, ◌<◌, ◌≤◌, eqb, length, get_or};
ghost use Rattle.std.specs.List.{list_all};
ghost use Rattle.base.specs.Checks.{reply};
ghost use Rattle.automata.specs.Automata.{letter};
ghost use Rattle.declare.specs.Constraints.{constraint, pairs};
ghost use Rattle.answers.specs.Answers.{done_said};
ghost use Rattle.watcher.specs.Calls.{lent_slots, watched, given, proper, all_whole, start_checks, start_said, started, usable, checks_of_step, Starts, Steps};
ghost use Rattle.watcher.specs.Table.{table as table_of, place};
ghost use Rattle.watcher.specs.Loops.{each_of, HasPlace, turn_to, Computes, first_turn, turn_by};

use answers::{Reason, Refusal};

// The record: how many activities are declared, constraints watched, and activities taken so far. C passes it as it is.
// The constraints are counted here beside their numbers, since a step that is lent others is to answer 1.
#[derive(Clone, Copy, Debug, PartialEq, Eq)]
#[repr(C)]
pub struct Watcher {
    pub activities: u32,
    pub constraints: u32,
    pub taken: u32,
}

pub const MOST_CONSTRAINTS: usize = 256;

// The numbers that a constraint takes: template, a, b.
pub const NUMBERS: usize = 3;

pub const MOST_NUMBERS: usize = NUMBERS * MOST_CONSTRAINTS;

// Which of a state's four numbers an event's letter takes. The test for b stands first: then both are made without a jump.
// The numbers of a constraint travel as they stand in what C lends: a step takes a and b alone, the start all three.
fn column_of(a: u16, b: u16, activity: u16) -> usize
    ensures { result ≡ 2 - letter a b activity }
{
    let unless_a = usize::from(activity == b);
    if activity == a { 2 } else { unless_a }
}

// Where the table has the next state. Any numbers may come in.
#[tactic(auto, unfolding(crate::specs::Table::place))]
fn place_of(a: u16, b: u16, state: u8, activity: u16) -> usize
    ensures { (result ≡ place a b state activity) × (result < 1024) }
{
    4 * usize::from(state) + column_of(a, b, activity)
}

// What a state tells: a byte and no enum, since C reads it in the array that it lends.
fn outlook_of(table: &[u8; 1024], state: u8) -> u8
    ensures { result ≡ get_or table.now (4 * state + 3) 0 }
{
    table[4 * usize::from(state) + 3]
}

// Gives each of so many constraints the state that the closure makes of its place and its state, and tells of it what is then open.
// States and told travel as two slices, since C lends them apart, and the count beside them, since parts of the two would have to be said to
// be equally long.
fn turn_each<F: Fn(usize, u8) -> u8>(
    table: &[u8; 1024],
    count: usize,
    states: &mut [u8],
    told: &mut [u8],
    next_state: F,
)
    requires fits { (count ≤ length states.old) × (count ≤ length told.old) }
    requires callable { (at : ℕ) (state : ℕ) → at < count → state < 256 → F.pre next_state at state }
    ensures { (next : ℕ → ℕ → ℕ)
        → Computes (F.post next_state) count next
        → lent_slots states.new told.new ≡ each_of (turn_to table.now next) count 0 (lent_slots states.old told.old) }
{
    // By index: one iterator would write through both (`zip`), and of elements so written a proof knows nothing afterwards.
    for at in 0..count {
        let state = next_state(at, states[at]);
        states[at] = state;
        told[at] = outlook_of(table, state);
    }
}

// Whether a template takes these activities beside each other: b is a in 1 to 8, a is below b in 9 to 12, a is not b in 13 to 24.
fn is_pair(template: u16, a: u16, b: u16) -> bool
    ensures { result ≡ pairs template a b }
{
    match template {
        0..=8 => a == b,
        9..=12 => a < b,
        _ => a != b,
    }
}

fn is_proper(activities: u32, template: u16, a: u16, b: u16) -> bool
    ensures { result ≡ proper activities (constraint template a b) }
{
    1 <= template
        && template <= 24
        && u32::from(a) < activities
        && u32::from(b) < activities
        && is_pair(template, a, b)
}

// Whether each of the constraints is proper. Numbers behind the last whole one are not looked at.
fn all_proper(activities: u32, numbers: &[u16]) -> bool
    ensures { result ≡ list_all (proper activities) (given numbers.now) }
{
    numbers
        .chunks_exact(NUMBERS)
        .all(|c| is_proper(activities, c[0], c[1], c[2]))
}

fn is_well_formed(activities: u32, numbers: &[u16]) -> bool
    ensures { result ≡ all_whole activities numbers.now }
{
    numbers.len() % NUMBERS == 0 && all_proper(activities, numbers)
}

// What start answers. Nothing is written before this is known.
fn start_answer(activities: u32, numbers: &[u16]) -> Result<Watcher, Refusal>
    ensures { start_said result ≡ reply (start_checks activities numbers.now) (activities ∷ length numbers.now / 3 ∷ 0 ∷ []) }
{
    if !declare::declarable(activities) {
        return Err(Reason::ActivitiesOutOfRange.into());
    }
    if MOST_NUMBERS < numbers.len() {
        return Err(Reason::TooMany.into());
    }
    if !is_well_formed(activities, numbers) {
        return Err(Reason::NoConstraint.into());
    }
    Ok(Watcher {
        activities,
        constraints: (numbers.len() / NUMBERS) as u32,
        taken: 0,
    })
}

// Starts to watch the constraints of the numbers, three each (template, a, b), with so many declared activities, and tells of each its state
// before the first event. A refused call changes no byte.
pub fn start(
    activities: u32,
    numbers: &[u16],
    states: &mut [u8; MOST_CONSTRAINTS],
    told: &mut [u8; MOST_CONSTRAINTS],
) -> Result<Watcher, Refusal>
    ensures { (there : Watcher) → Starts activities numbers.now (watched there states.old told.old)
        (start_said result) (watched (started there result) states.new told.new) }
{
    let watcher = start_answer(activities, numbers)?;
    watcher.first_turns(numbers, states, told);
    Ok(watcher)
}

// One activity more, and what is then told of each constraint. The numbers are those of the start. A refused step changes nothing.
pub fn step(
    watcher: &mut Watcher,
    numbers: &[u16],
    states: &mut [u8; MOST_CONSTRAINTS],
    told: &mut [u8; MOST_CONSTRAINTS],
    activity: u32,
) -> Result<(), Refusal>
    ensures { Steps numbers.now (watched watcher.old states.old told.old) activity
        (done_said result) (watched watcher.new states.new told.new) }
{
    watcher.step_answer(numbers.len(), activity)?;
    watcher.turns(numbers, states, told, activity as u16);
    watcher.taken += 1;
    Ok(())
}

impl Watcher {
    // The table. Where one activity alone is declared, every event is that one, so that template 8 (End), once it holds, holds with every
    // continuation: 163 is where its state 1 tells, 4 * (8 + 32) + 3.
    fn table(self) -> [u8; 1024]
        ensures { result ≡ table_of (eqb self.activities 1) }
    {
        let mut table = table::TABLE;
        if self.activities == 1 {
            table[163] = 0;
        }
        table
    }

    // Every constraint, before the first event.
    fn first_turns(self, numbers: &[u16], states: &mut [u8], told: &mut [u8])
        requires { HasPlace self numbers.now (lent_slots states.old told.old) }
        ensures { lent_slots states.new told.new
            ≡ each_of (first_turn (table_of (eqb self.activities 1)) numbers.now) self.constraints 0 (lent_slots states.old told.old) }
    {
        turn_each(
            &self.table(),
            self.constraints as usize,
            states,
            told,
            |at, _| (numbers[NUMBERS * at] % 32) as u8,
        );
    }

    // Every constraint, one event on.
    fn turns(self, numbers: &[u16], states: &mut [u8], told: &mut [u8], activity: u16)
        requires { HasPlace self numbers.now (lent_slots states.old told.old) }
        ensures { lent_slots states.new told.new
            ≡ each_of (turn_by (table_of (eqb self.activities 1)) numbers.now activity) self.constraints 0
            (lent_slots states.old told.old) }
    {
        let table = self.table();
        let count = self.constraints as usize;
        turn_each(&table, count, states, told, |at, state| {
            let from = NUMBERS * at;
            table[place_of(numbers[from + 1], numbers[from + 2], state, activity)]
        });
    }

    // Whether the record has the sizes that a start leaves, beside so many numbers.
    fn is_usable(self, numbers: usize) -> bool
        ensures { result ≡ usable self numbers }
    {
        let constraints = self.constraints as usize;
        self.activities <= declare::MOST_ACTIVITIES
            && constraints <= MOST_CONSTRAINTS
            && NUMBERS * constraints == numbers
            && self.taken <= declare::LONGEST_TRACE
    }

    // What step answers. Nothing is written before this is known.
    fn step_answer(self, numbers: usize, activity: u32) -> Result<(), Refusal>
        ensures { done_said result ≡ reply (checks_of_step self numbers activity) [] }
    {
        if !self.is_usable(numbers) {
            return Err(Reason::NotSound.into());
        }
        if self.activities <= activity {
            return Err(Reason::Undeclared.into());
        }
        if declare::LONGEST_TRACE <= self.taken {
            return Err(Reason::TooLong.into());
        }
        Ok(())
    }
}
