// A row of the list: which numbers it has is written and read here, and in no other code.
ghost use Rattle.std.specs.Prelude.{◌+◌, ◌*◌, ◌<◌, ◌≡◌, length, set};
ghost use Rattle.std.proofs.lemmas.List.Edits.{sets};
ghost use Rattle.discovery.specs.Listing.{numbers, row as row_of, in_row, from_row};

use declare::Constraint;

// The numbers that a constraint takes in the list.
pub const NUMBERS: usize = 5;

// What is counted for a constraint: the fulfilled traces, and those in which it is activated. The list's numbers have 16 bits, and no store keeps
// more traces.
#[derive(Clone, Copy, Debug, PartialEq, Eq)]
pub struct Counts {
    pub fulfilled: u16,
    pub activated: u16,
}

// A constraint and its counts, as they stand in the list.
#[derive(Clone, Copy, Debug, PartialEq, Eq)]
pub struct Row {
    pub template: u16,
    pub a: u16,
    pub b: u16,
    pub fulfilled: u16,
    pub activated: u16,
}

impl Row {
    pub(crate) fn numbers(self) -> [u16; NUMBERS]
        ensures { result ≡ in_row self }
    {
        [
            self.template,
            self.a,
            self.b,
            self.fulfilled,
            self.activated,
        ]
    }
}

impl From<[u16; NUMBERS]> for Row {
    ghost from_gives = { λ columns row. row ≡ from_row columns };

    fn from([template, a, b, fulfilled, activated]: [u16; NUMBERS]) -> Row {
        Row {
            template,
            a,
            b,
            fulfilled,
            activated,
        }
    }
}

// A number past the slice's end is dropped: the first pass of find is lent no numbers, and writes none.
fn put(list: &mut [u16], at: usize, number: u16)
    ensures { list.new ≡ set list.old at number }
{
    if at < list.len() {
        list[at] = number;
    }
}

// A row of any number of columns.
fn put_row(list: &mut [u16], from: usize, row: &[u16])
    requires { from + length row.now < 18446744073709551616 }
    ensures { list.new ≡ sets list.old from row.now }
{
    for k in 0..row.len() {
        put(list, from + k, row[k]);
    }
}

// The row of a constraint behind those of so many listed before it.
// How many these are stands beside the list and is no length of it: the first pass counts them, and is lent none of the list.
pub(crate) fn write(list: &mut [u16], listed: u32, c: Constraint, counts: Counts)
    ensures { list.new ≡ sets list.old (numbers * listed) (row_of c counts) }
{
    let row = Row {
        template: u16::from(c.template),
        a: u16::from(c.a),
        b: u16::from(c.b),
        fulfilled: counts.fulfilled,
        activated: counts.activated,
    };
    put_row(list, NUMBERS * (listed as usize), &row.numbers());
}
