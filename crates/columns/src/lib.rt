// Logs in columns: lines, read.
#![tactic(auto)]

mod reading;

ghost use Rattle.std.specs.Prelude.{◌≡◌, ◌<◌, Ok, IsOk, length, get_or};
ghost use Rattle.answers.specs.Answers.{count_said};
ghost use Rattle.eventlog.specs.Store.{lent};
ghost use Rattle.columns.specs.Log.{line_of, lines};
ghost use Rattle.columns.specs.Survey.{entry_of, fault_of, next_progress, survey_of, word_before as word_before_of, line_written, lines_written, memory_in};
ghost use Rattle.columns.specs.Calls.{Reads};

use answers::{Reason, Refusal};
use eventlog::{SoundStore, Store};
use reading::Reading;

// A line's bytes, its line feed among them.
pub const LINE: usize = 10;

// What a line of a log holds: a trace's number and one of its events.
#[derive(Clone, Copy)]
struct Entry {
    number: u32,
    activity: u32,
}

// How far a log is read: the number of the last line, how many events its trace can still take (none before the first line),
// how many traces the lines spell, and the end of the last of them.
// Number 0 and no Option before the first line: a line has at least 1, so the comparisons are the same there.
#[derive(Clone, Copy)]
struct Progress {
    number: u32,
    left: u32,
    added: u32,
    last: u32,
}

#[tactic(auto, using(crate::proofs::Lines::malformed_lines))]
fn read_line(bytes: &[u8]) -> Option<Entry>
    ensures { result ≡ entry_of (line_of bytes.now) }
{
    if bytes.len() != LINE || bytes[9] != fields::LINE_FEED {
        return None;
    }
    let number = fields::read_field(&bytes[0..6])?;
    if number < 1 {
        return None;
    }
    let activity = fields::read_field(&bytes[6..9])?;
    Some(Entry { number, activity })
}

// The answer to a log, before anything is written: the traces to be added, or the first line's refusal.
fn survey(mut reading: Reading, log: &[u8]) -> Result<usize, Refusal>
    ensures { result ≡ survey_of reading.room reading.at 1 (lines log.now) }
{
    for (k, line) in log.chunks(LINE).enumerate() {
        // A match: by `map_err` and `?` the proof did not close, for what `map_err` says was not to be read at the goals.
        match reading.take(line) {
            Ok(after) => reading = after,
            Err(reason) => return Err(reason.with(k + 1)),
        }
    }
    Ok(reading.at.added as usize)
}

// The word of a line's trace before its event: 0 where the line starts the trace, whatever its place in the word slice holds.
fn word_before(at: Progress, number: u32, words: &[u32], trace: usize) -> u32
    requires { trace < length words.now }
    ensures { result ≡ word_before_of at number (get_or words.now trace 0) }
{
    if number == at.number { words[trace] } else { 0 }
}

// One line's event, and its trace's end and word after it, written. The buffers are lent apart, as in `read`.
fn write_line(
    reading: Reading,
    entry: Entry,
    events: &mut [u8],
    ends: &mut [u32],
    words: &mut [u32],
) -> Reading
    requires passes { fault_of reading.room reading.at entry ≡ Ok tt }
    requires events { reading.room.space.events ≡ length events.old }
    requires ends { reading.room.space.ends ≡ length ends.old }
    requires words { reading.room.space.words ≡ length words.old }
    ensures room { result.room ≡ reading.room }
    ensures at { result.at ≡ next_progress reading.at entry.number }
    ensures written { memory_in reading.room events.new ends.new words.new ≡
        line_written reading.at (Some entry) (memory_in reading.room events.old ends.old words.old) }
{
    let after = reading.next(entry);
    let trace = (after.room.traces + after.at.added - 1) as usize;
    let event = entry.activity as u8;
    let before = word_before(reading.at, entry.number, words, trace);
    events[reading.at.last as usize] = event;
    ends[trace] = after.at.last;
    words[trace] = eventlog::with_bit(before, event);
    after
}

// The events, ends and words of a log that the first pass has accepted, written. They are lent apart, as in `read`.
fn write_lines(
    mut reading: Reading,
    events: &mut [u8],
    ends: &mut [u32],
    words: &mut [u32],
    log: &[u8],
)
    requires accepted { IsOk (survey_of reading.room reading.at 1 (lines log.now)) }
    requires events { reading.room.space.events ≡ length events.old }
    requires ends { reading.room.space.ends ≡ length ends.old }
    requires words { reading.room.space.words ≡ length words.old }
    ensures { memory_in reading.room events.new ends.new words.new ≡
        lines_written reading.at (memory_in reading.room events.old ends.old words.old) (lines log.now) }
{
    for line in log.chunks(LINE) {
        if let Some(entry) = read_line(line) {
            reading = write_line(reading, entry, events, ends, words);
        }
    }
}

// The traces that a log in columns spells, added behind those kept; or the refusal of the first line with a fault, and nothing written.
// The record and its buffers are lent apart, as C lends them.
pub fn read(
    store: &mut Store,
    events: &mut [u8],
    ends: &mut [u32],
    words: &mut [u32],
    log: &[u8],
) -> Result<usize, Refusal>
    ensures { Reads (lent store.old events.old ends.old words.old) log.now (count_said result)
        (lent store.new events.new ends.new words.new) }
{
    let sound_store = SoundStore::new(*store, events, ends, words).ok_or(Reason::NotSound)?;
    let start = Reading::start(sound_store);
    let added = survey(start, log)?;
    write_lines(start, events, ends, words, log);
    store.traces += added as u32;
    Ok(added)
}
