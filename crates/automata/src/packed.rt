// The templates' automata, which are the entries of the two tables packed.
use crate::Automaton;

pub const EXISTENCE_1: Automaton = Automaton {
    a: 0x0808080808080808,
    b: 0x0000000000000800,
    other: 0x0000000000000800,
    verdicts: 0x0202020202020002,
};

pub const EXISTENCE_2: Automaton = Automaton {
    a: 0x0808080808101008,
    b: 0x0000000000100800,
    other: 0x0000000000100800,
    verdicts: 0x0202020202000202,
};

pub const EXISTENCE_3: Automaton = Automaton {
    a: 0x0808080818181008,
    b: 0x0000000018100800,
    other: 0x0000000018100800,
    verdicts: 0x0202020200020202,
};

pub const ABSENCE_1: Automaton = Automaton {
    a: 0x0808080808080808,
    b: 0x0000000000000800,
    other: 0x0000000000000800,
    verdicts: 0x0000000000000200,
};

pub const ABSENCE_2: Automaton = Automaton {
    a: 0x0808080808101008,
    b: 0x0000000000100800,
    other: 0x0000000000100800,
    verdicts: 0x0000000000020000,
};

pub const ABSENCE_3: Automaton = Automaton {
    a: 0x0808080818181008,
    b: 0x0000000018100800,
    other: 0x0000000018100800,
    verdicts: 0x0000000002000000,
};

pub const INIT: Automaton = Automaton {
    a: 0x0808080808100808,
    b: 0x1010101010100810,
    other: 0x1010101010100810,
    verdicts: 0x0202020202020002,
};

pub const END: Automaton = Automaton {
    a: 0x0808080808080808,
    b: 0x0000000000000000,
    other: 0x0000000000000000,
    verdicts: 0x0202020202020002,
};

pub const CHOICE: Automaton = Automaton {
    a: 0x0808080808080808,
    b: 0x0808080808080808,
    other: 0x0000000000000800,
    verdicts: 0x0202020202020002,
};

pub const EXCLUSIVE_CHOICE: Automaton = Automaton {
    a: 0x0808080818180808,
    b: 0x1010101018101810,
    other: 0x0000000018100800,
    verdicts: 0x0202020202000002,
};

pub const CO_EXISTENCE: Automaton = Automaton {
    a: 0x0808080818180808,
    b: 0x1010101018101810,
    other: 0x0000000018100800,
    verdicts: 0x0101010100020201,
};

pub const NOT_CO_EXISTENCE: Automaton = Automaton {
    a: 0x0808080818180808,
    b: 0x1010101018101810,
    other: 0x0000000018100800,
    verdicts: 0x0101010102000001,
};

pub const RESPONDED_EXISTENCE: Automaton = Automaton {
    a: 0x0808080818180808,
    b: 0x1010101018101810,
    other: 0x0000000018100800,
    verdicts: 0x0101010100010201,
};

pub const RESPONSE: Automaton = Automaton {
    a: 0x0808080808080808,
    b: 0x0000000000101000,
    other: 0x0000000000100800,
    verdicts: 0x0101010101000201,
};

pub const ALTERNATE_RESPONSE: Automaton = Automaton {
    a: 0x0808080808101008,
    b: 0x0000000018101800,
    other: 0x0000000018100800,
    verdicts: 0x0101010100020201,
};

pub const CHAIN_RESPONSE: Automaton = Automaton {
    a: 0x0808080808101008,
    b: 0x0000000018101800,
    other: 0x0000000018101000,
    verdicts: 0x0101010100020201,
};

pub const PRECEDENCE: Automaton = Automaton {
    a: 0x0808080818100808,
    b: 0x1010101018101810,
    other: 0x0000000018100800,
    verdicts: 0x0101010100020101,
};

pub const ALTERNATE_PRECEDENCE: Automaton = Automaton {
    a: 0x0808082020100808,
    b: 0x1010101810101810,
    other: 0x0000002018100800,
    verdicts: 0x0101010000020101,
};

pub const CHAIN_PRECEDENCE: Automaton = Automaton {
    a: 0x0808082020100808,
    b: 0x1010101810101810,
    other: 0x0000001818100000,
    verdicts: 0x0101010000020101,
};

pub const SUCCESSION: Automaton = Automaton {
    a: 0x0808080808100808,
    b: 0x1010101018101810,
    other: 0x0000000018100800,
    verdicts: 0x0101010100020201,
};

pub const ALTERNATE_SUCCESSION: Automaton = Automaton {
    a: 0x0808080808101008,
    b: 0x1010101010101810,
    other: 0x0000000018100800,
    verdicts: 0x0101010100020201,
};

pub const CHAIN_SUCCESSION: Automaton = Automaton {
    a: 0x0808080808101008,
    b: 0x1010101010101810,
    other: 0x0000000018101000,
    verdicts: 0x0101010100020201,
};

pub const NOT_SUCCESSION: Automaton = Automaton {
    a: 0x0808080818080808,
    b: 0x1010101018101810,
    other: 0x0000000018100800,
    verdicts: 0x0101010102000001,
};

pub const NOT_CHAIN_SUCCESSION: Automaton = Automaton {
    a: 0x0808080818080808,
    b: 0x1010101018101810,
    other: 0x0000000018101000,
    verdicts: 0x0101010102000001,
};
