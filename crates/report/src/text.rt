// The text that is printed, put into a lent slice.
ghost use Rattle.std.specs.Prelude.{◌+◌, ◌*◌, ◌≤◌, ◌≡◌, length};

use answers::Refusal;
use discovery::{Found, NUMBERS, Row};

// The columns of a refusal's line: its number, its detail.
const NUMBER_WIDTH: usize = 2;

const DETAIL_WIDTH: usize = 6;

// The columns of each of the first three numbers of the first line, and of the fourth, the events read.
const FIRST_WIDTH: usize = 6;

const READ_WIDTH: usize = 10;

// The columns of a constraint's line: its template, each of its activities, each of its counts.
const TEMPLATE_WIDTH: usize = 2;

const ACTIVITY_WIDTH: usize = 3;

const COUNT_WIDTH: usize = 5;

// A line's bytes, its line feed among them.
pub(crate) const FIRST_LINE: usize = 3 * FIRST_WIDTH + READ_WIDTH + 1;

pub(crate) const CONSTRAINT_LINE: usize = TEMPLATE_WIDTH + 2 * ACTIVITY_WIDTH + 2 * COUNT_WIDTH + 1;

// The text so far stands in the lent slice before a place.
// Put by `fields` and not by `write!`, no plainer: these bytes are the ones of which a law says that they read back as the number.
// That there is room stands in each contract, since each puts another size.
#[derive(Drop)]
pub(crate) struct Text<'a> {
    pub(crate) out: &'a mut [u8],
    pub(crate) at: usize,
}

impl<'a> Text<'a> {
    ghost use Rattle.std.specs.Prelude.{[], ◌∷◌, replicate};
    ghost use Rattle.answers.specs.Answers.{reason_number};
    ghost use Rattle.fields.specs.Field.{blank, line_feed, spell};
    ghost use Rattle.report.specs.Print.{activity_width, refusal_line_size, first_line_size, constraint_line_size, refusal_line, first_line, second_field};
    ghost use Rattle.report.specs.Puts.{Adds, printed_line, lines_of};

    fn put_number(&mut self, width: usize, n: usize)
        requires { self.old.at + width ≤ length self.old.out.now }
        ensures { Adds self.old width (spell width n) self.new }
    {
        let end = self.at + width;
        fields::put_field(&mut self.out[self.at..end], n);
        self.at = end;
    }

    // Like `put_number` but for one call: with that call as a closure neither would be shorter.
    fn put_blanks(&mut self, width: usize)
        requires { self.old.at + width ≤ length self.old.out.now }
        ensures { Adds self.old width (replicate width blank) self.new }
    {
        let end = self.at + width;
        fields::put_blanks(&mut self.out[self.at..end]);
        self.at = end;
    }

    fn put_line_feed(&mut self)
        requires { self.old.at + 1 ≤ length self.old.out.now }
        ensures { Adds self.old 1 (line_feed ∷ []) self.new }
    {
        self.out[self.at] = fields::LINE_FEED;
        self.at += 1;
    }

    // The second activity of a constraint, blank for templates 1 to 8.
    fn put_second(&mut self, c: Row)
        requires { self.old.at + activity_width ≤ length self.old.out.now }
        ensures { Adds self.old activity_width (second_field c.template c.b) self.new }
    {
        if c.template <= 8 {
            self.put_blanks(ACTIVITY_WIDTH);
        } else {
            self.put_number(ACTIVITY_WIDTH, usize::from(c.b));
        }
    }

    fn put_constraint(&mut self, c: Row)
        requires { self.old.at + constraint_line_size ≤ length self.old.out.now }
        ensures { Adds self.old constraint_line_size (printed_line c) self.new }
    {
        self.put_number(TEMPLATE_WIDTH, usize::from(c.template));
        self.put_number(ACTIVITY_WIDTH, usize::from(c.a));
        self.put_second(c);
        self.put_number(COUNT_WIDTH, usize::from(c.fulfilled));
        self.put_number(COUNT_WIDTH, usize::from(c.activated));
        self.put_line_feed();
    }

    pub(crate) fn put_list(&mut self, rows: &[[u16; NUMBERS]])
        requires { self.old.at + constraint_line_size * length rows.now ≤ length self.old.out.now }
        ensures { Adds self.old (constraint_line_size * length rows.now) (lines_of rows.now) self.new }
    {
        for &row in rows {
            self.put_constraint(row.into());
        }
    }

    pub(crate) fn put_first(&mut self, found: Found)
        requires { self.old.at + first_line_size ≤ length self.old.out.now }
        ensures { Adds self.old first_line_size (first_line found.constraints found.replayed found.traces found.events_read) self.new }
    {
        self.put_number(FIRST_WIDTH, found.constraints as usize);
        self.put_number(FIRST_WIDTH, found.replayed as usize);
        self.put_number(FIRST_WIDTH, found.traces as usize);
        self.put_number(READ_WIDTH, found.events_read as usize);
        self.put_line_feed();
    }

    pub(crate) fn put_refusal(&mut self, refusal: Refusal)
        requires { self.old.at + refusal_line_size ≤ length self.old.out.now }
        ensures { Adds self.old refusal_line_size (refusal_line (reason_number refusal.reason) refusal.detail) self.new }
    {
        self.put_number(NUMBER_WIDTH, usize::from(refusal.reason.number()));
        self.put_number(DETAIL_WIDTH, refusal.detail);
        self.put_line_feed();
    }
}
