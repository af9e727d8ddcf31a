// All that findrules does between its input and its output.
#![tactic(auto)]

mod text;

ghost use Rattle.std.specs.Prelude.{◌≡◌, true, ◌*◌, ◌≤◌, length};
ghost use Rattle.declare.specs.Traces.{declarable};
ghost use Rattle.columns.specs.Log.{log_checks};
ghost use Rattle.discovery.specs.Listing.{numbers};
ghost use Rattle.report.specs.Report.{room_lent, Reports};
ghost use Rattle.report.specs.Puts.{Puts};
ghost use Rattle.report.specs.Stages.{settings_of, Decides, Decided, number_listed, answer_text};

use answers::{Reason, Refusal};
use discovery::Found;
use eventlog::Store;
use pruning::Settings;
use text::{CONSTRAINT_LINE, FIRST_LINE, Text};

pub const MOST_INPUT: usize = 65536;

pub const LENT_EVENTS: usize = 6552;

pub const LENT_ENDS: usize = 4095;

// As many as ends.
pub const LENT_WORDS: usize = LENT_ENDS;

pub const LENT_CONSTRAINTS: usize = 6400;

pub const LIST: usize = discovery::NUMBERS * LENT_CONSTRAINTS;

// The first line, and a line for each constraint.
pub const OUT: usize = FIRST_LINE + CONSTRAINT_LINE * LENT_CONSTRAINTS;

// What findrules lends beside the output: the three buffers of a store, and the slice for the list.
#[derive(Drop)]
pub struct Arrays {
    pub events: [u8; LENT_EVENTS],
    pub ends: [u32; LENT_ENDS],
    pub words: [u32; LENT_WORDS],
    pub list: [u16; LIST],
}

// The settings line's bytes, its line feed among them.
const SETTINGS_LINE: usize = 12;

// What the settings line sets.
#[derive(Clone, Copy)]
struct SettingsLine {
    activities: u32,
    settings: Settings,
}

fn read_settings(input: &[u8]) -> Option<SettingsLine>
    ensures { result ≡ settings_of input.now }
{
    if input.len() < SETTINGS_LINE || input[SETTINGS_LINE - 1] != fields::LINE_FEED {
        return None;
    }
    let activities = fields::read_field(&input[..3])?;
    let threshold = fields::read_field(&input[3..7])?;
    let confidence = fields::read_field(&input[7..11])?;
    Some(SettingsLine {
        activities,
        settings: Settings {
            threshold,
            confidence,
        },
    })
}

// The log is read into an empty store.
fn read_and_find(
    mut store: Store,
    settings: Settings,
    log: &[u8],
    arrays: &mut Arrays,
) -> Result<Found, Refusal>
    requires { (declarable store.activities ≡ true) × (store.traces ≡ 0) }
    ensures { Decides (log_checks (room_lent store.activities) log.now)
        store.activities settings log.now arrays.old result arrays.new }
{
    let Arrays {
        events,
        ends,
        words,
        list,
    } = arrays;
    columns::read(&mut store, events, ends, words, log)?;
    discovery::find(store, events, ends, words, settings, list)
}

// The answer to an input. Where it lists constraints, the list holds them.
fn decide(input: &[u8], arrays: &mut Arrays) -> Result<Found, Refusal>
    ensures { Decided input.now arrays.old result arrays.new }
{
    if MOST_INPUT < input.len() {
        return Err(Reason::TooMuchInput.into());
    }
    let SettingsLine {
        activities,
        settings,
    } = read_settings(input).ok_or(Reason::Malformed)?;
    let store = eventlog::open(activities)?;
    discovery::check(settings)?;
    read_and_find(store, settings, &input[SETTINGS_LINE..], arrays)
}

// The text of an answer, at the front of out; how many bytes that is.
fn print(answer: Result<Found, Refusal>, list: &[u16; LIST], out: &mut [u8; OUT]) -> usize
    requires { numbers * number_listed answer ≤ length list.now }
    ensures { Puts out.old 0 (length (answer_text answer list.now)) (answer_text answer list.now)
        result out.new }
{
    let mut text = Text { out, at: 0 };
    match answer {
        Ok(found) => {
            text.put_first(found);
            let (rows, _) = list.as_chunks();
            text.put_list(&rows[..found.constraints as usize]);
        }
        Err(refusal) => text.put_refusal(refusal),
    }
    text.at
}

// What findrules prints for its input, into out; how many bytes that is.
pub fn report(input: &[u8], arrays: &mut Arrays, out: &mut [u8; OUT]) -> usize
    ensures { Reports input.now arrays.old out.old result arrays.new out.new }
{
    let answer = decide(input, arrays);
    print(answer, &arrays.list, out)
}
