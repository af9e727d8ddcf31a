// Fields of columns: reading them, and putting numbers into them.
#![tactic(auto)]

ghost use Rattle.std.specs.Prelude.{◌+◌, ◌*◌, ◌≤◌, ◌≡◌, length, replicate};
ghost use Rattle.fields.specs.Field.{blank, widest, field_of, spell};
ghost use Rattle.fields.specs.Scan.{scan_byte, scanned, finish, so_far};
ghost use Rattle.fields.specs.Columns.{column_of};

pub const BLANK: u8 = b' ';

pub const LINE_FEED: u8 = b'\n';

// How far a field is read: blanks alone so far, or digits with the value so far, or no field.
#[derive(Clone, Copy, Debug, PartialEq, Eq)]
enum Scan {
    Blanks,
    Digits(u32),
    Broken,
}

impl Scan {
    // One column more, where one digit more fits 32 bits. Zero is one digit, so nothing may follow it.
    // A match on how far the field is read: with closures each would have to hand on the next one.
    fn next(self, byte: u8) -> Scan
        requires { so_far self * 10 + 9 ≤ u32.MAX }
        ensures { result ≡ scan_byte self byte }
    {
        match self {
            Scan::Blanks if byte == BLANK => Scan::Blanks,
            Scan::Blanks if byte.is_ascii_digit() => Scan::Digits(u32::from(byte - b'0')),
            Scan::Digits(value) if value != 0 && byte.is_ascii_digit() => {
                Scan::Digits(value * 10 + u32::from(byte - b'0'))
            }
            _ => Scan::Broken,
        }
    }

    fn finish(self) -> Option<u32>
        ensures { result ≡ finish self }
    {
        match self {
            Scan::Digits(value) => Some(value),
            Scan::Blanks | Scan::Broken => None,
        }
    }
}

// Columns read from the left, one after the other, with the value so far; nine are read at most, so that it fits 32 bits.
fn scan_columns(columns: &[u8]) -> Scan
    requires { length columns.now ≤ widest }
    ensures { result ≡ scanned columns.now }
{
    let mut scan = Scan::Blanks;
    for &byte in columns {
        scan = scan.next(byte);
    }
    scan
}

// The number in a field of at most nine columns.
#[tactic(auto, using(crate::proofs::Fields::scanned_is_field))]
pub fn read_field(bytes: &[u8]) -> Option<u32>
    ensures { result ≡ field_of bytes.now }
{
    if 9 < bytes.len() {
        return None;
    }
    scan_columns(bytes).finish()
}

// A column before a field's last: a digit, or blank where nothing is left of the number.
fn column(n: usize) -> u8
    ensures { result ≡ column_of n }
{
    if n == 0 { BLANK } else { b'0' + (n % 10) as u8 }
}

// A number in all of a field, from its last column to its first; of one that does not fit, its lowest digits.
pub fn put_field(field: &mut [u8], n: usize)
    ensures { field.new ≡ spell (length field.old) n }
{
    let mut byte = b'0' + (n % 10) as u8;
    let mut rest = n / 10;
    // By index: with iter_mut().rev() the contract was left open, since a proof knows nothing of elements so written.
    for i in (0..field.len()).rev() {
        field[i] = byte;
        byte = column(rest);
        rest /= 10;
    }
}

// A field with no number.
pub fn put_blanks(field: &mut [u8])
    ensures { field.new ≡ replicate (length field.old) blank }
{
    field.fill(BLANK);
}
