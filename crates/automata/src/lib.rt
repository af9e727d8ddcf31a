// The automata of the DECLARE templates, the tables that hold them, and the replayer. What is still open in each state (specs/Outlook) is
// told by the watcher.
#![tactic(auto)]

mod packed;
mod tables;

ghost use Rattle.std.specs.Prelude.{◌+◌, ◌*◌, ◌<◌, ◌≤◌, ◌≡◌, ◌∷◌, [], length};
ghost use Rattle.automata.specs.Automata.{next_states, state_verdicts, automaton, no_automaton, no_moves, moves_of, start, advance, advance_all, verdict_by};

use declare::Verdict;

// A template's automaton: for each letter (a, b, any other) the next states of its eight states, and their verdicts, a byte each.
// A next state is written as eight times its number, which is how far a number is to be shifted for it.
#[derive(Clone, Copy, Debug, PartialEq, Eq)]
pub struct Automaton {
    pub a: u64,
    pub b: u64,
    pub other: u64,
    pub verdicts: u64,
}

// For a constraint, where each activity leads to, and its automaton's verdicts.
#[derive(Clone, Copy, Debug, PartialEq, Eq)]
pub struct Moves {
    pub to: [u64; 32],
    pub verdicts: u64,
}

// A number whose lowest six bits are eight times the number of a state. What stands above them is left there: the next shift looks at six
// bits only, and to clear the others would be one more operation to wait for.
#[derive(Clone, Copy, Debug, PartialEq, Eq)]
pub struct Replayer {
    state: u64,
}

// The table that is believed, for who carries it to another machine: the replay goes by its entries packed (packed.rt).
// The next states, in bytes: 24 templates, 8 states and 3 letters (a, b, any other), in that order.
#[tactic(auto, unfolding(crate::specs::Automata::next_states))]
pub fn next_states() -> [u8; 576]
    ensures { result ≡ next_states }
{
    tables::NEXT
}

// The table of the states' verdicts, in bytes: 24 templates and 8 states.
#[tactic(auto, unfolding(crate::specs::Automata::state_verdicts))]
pub fn state_verdicts() -> [u8; 192]
    ensures { result ≡ state_verdicts }
{
    tables::VERDICTS
}

impl Automaton {
    // Of no template: it stays in state 0, not activated.
    pub fn none() -> Automaton
        ensures { result ≡ no_automaton }
    {
        Automaton {
            a: 0,
            b: 0,
            other: 0,
            verdicts: 1,
        }
    }

    // A template's automaton; of a number that is no template's, that of no template.
    // A match with constants: the compiler makes tables of it in read-only memory, where an array would be put onto the stack for each look.
    #[tactic(auto, unfolding(crate::specs::Automata::automaton, crate::specs::Automata::moves_word, crate::specs::Automata::verdicts_word))]
    pub fn of(template: u8) -> Automaton
        ensures { result ≡ automaton template }
    {
        match template {
            1 => packed::EXISTENCE_1,
            2 => packed::EXISTENCE_2,
            3 => packed::EXISTENCE_3,
            4 => packed::ABSENCE_1,
            5 => packed::ABSENCE_2,
            6 => packed::ABSENCE_3,
            7 => packed::INIT,
            8 => packed::END,
            9 => packed::CHOICE,
            10 => packed::EXCLUSIVE_CHOICE,
            11 => packed::CO_EXISTENCE,
            12 => packed::NOT_CO_EXISTENCE,
            13 => packed::RESPONDED_EXISTENCE,
            14 => packed::RESPONSE,
            15 => packed::ALTERNATE_RESPONSE,
            16 => packed::CHAIN_RESPONSE,
            17 => packed::PRECEDENCE,
            18 => packed::ALTERNATE_PRECEDENCE,
            19 => packed::CHAIN_PRECEDENCE,
            20 => packed::SUCCESSION,
            21 => packed::ALTERNATE_SUCCESSION,
            22 => packed::CHAIN_SUCCESSION,
            23 => packed::NOT_SUCCESSION,
            24 => packed::NOT_CHAIN_SUCCESSION,
            _ => Automaton::none(),
        }
    }
}

impl Moves {
    // Nowhere, so far.
    pub fn none() -> Moves
        ensures { result ≡ no_moves }
    {
        Moves {
            to: [0; 32],
            verdicts: 0,
        }
    }

    // Those of a constraint on a and b. In place: what is handed back would be copied by memcpy, which the archive for C would then need.
    pub fn set(&mut self, automaton: Automaton, a: u8, b: u8)
        ensures { self.new ≡ record { to = moves_of automaton a b; verdicts = automaton.verdicts } }
    {
        self.to = [automaton.other; 32];
        self.to[usize::from(b % 32)] = automaton.b;
        self.to[usize::from(a % 32)] = automaton.a;
        self.verdicts = automaton.verdicts;
    }

    // The verdict on a whole trace. The trace is read once, front to back.
    pub fn verdict(&self, trace: &[u8]) -> Verdict
        ensures { result ≡ verdict_by self.now.verdicts (advance_all self.now.to start trace.now) }
    {
        trace
            .iter()
            .fold(
                Replayer::new(),
                |replayer, &event| replayer.step(&self.to, event),
            )
            .verdict(self.verdicts)
    }
}

impl Replayer {
    // Before the first event.
    pub fn new() -> Replayer
        ensures { result ≡ start }
    {
        Replayer { state: 0 }
    }

    // Consumes one event.
    pub fn step(mut self, moves: &[u64; 32], event: u8) -> Replayer
        ensures { result ≡ advance moves.now self event }
    {
        self.state = moves[usize::from(event % 32)] >> (self.state % 64);
        self
    }

    // The verdict on the events so far, by an automaton's verdicts.
    pub fn verdict(self, verdicts: u64) -> Verdict
        ensures { result ≡ verdict_by verdicts self }
    {
        match (verdicts >> (self.state % 64)) % 64 {
            0 => Verdict::Fulfilled,
            1 => Verdict::NotActivated,
            _ => Verdict::Violated,
        }
    }
}
