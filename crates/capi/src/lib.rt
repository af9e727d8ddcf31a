// The calls for programs in C or Rust: records of numbers, and slices. include/budgieleaf.h says what each does.
#![tactic(auto)]

mod values;

ghost use Rattle.std.specs.Prelude.{◌≡◌, List, [], ℕ};
ghost use Rattle.answers.specs.Answers.{said_by, record_after};
ghost use Rattle.eventlog.specs.Store.{Memory, sound, lent, with_store};
ghost use Rattle.history.specs.Ledger.{open_for, add as add_of, read as read_of, find as find_of};
ghost use Rattle.watcher.specs.Calls.{watched, Starts, Steps};
ghost use Rattle.capi.specs.Numbers.{number_of, InNumbers, Returned};
ghost use Rattle.capi.specs.Histories.{CalledFromC, to_c};

use answers::Refusal;
use eventlog::Store;
use pruning::Settings;
use values::{ANSWER, Values};
use watcher::{MOST_CONSTRAINTS, Watcher};

// The number that a call returns: 0, or the refusal's. 0 and no Option, since C reads it.
fn number<T>(said: &Result<T, Refusal>) -> u32
    ensures { (values : T → List ℕ) → result ≡ number_of (said_by values said.now) }
{
    match said {
        Ok(_) => 0,
        Err(refusal) => u32::from(refusal.reason.number()),
    }
}

// What a call says: its number, and the answer written.
fn put<T: Values + Drop>(answer: &mut [u64; ANSWER], said: Result<T, Refusal>) -> u32
    ensures { InNumbers (said_by T.values said) result answer.new }
{
    let number = number(&said);
    *answer = match said {
        Ok(value) => value.numbers(),
        Err(refusal) => [refusal.detail as u64, 0, 0, 0],
    };
    number
}

// A new record in the place of the one there was, where a call made one.
fn put_record<T: Copy>(there: &mut T, made: Result<T, Refusal>) -> u32
    ensures stored { there.new ≡ record_after there.old made }
    ensures number { (values : T → List ℕ) → result ≡ number_of (said_by values made) }
{
    let number = number(&made);
    if let Ok(new) = made {
        *there = new;
    }
    number
}

#[unsafe(no_mangle)]
pub extern "C" fn budgieleaf_open(n: u32, store: &mut Store) -> u32
    ensures { (m : Memory) → CalledFromC (with_store store.old m) (open_for n) (to_c result [] []) (with_store store.new m) }
{
    put_record(store, eventlog::open(n))
}

#[unsafe(no_mangle)]
pub extern "C" fn budgieleaf_is_sound(
    store: &Store,
    events: &[u8],
    ends: &[u32],
    words: &[u32],
) -> bool
    ensures { result ≡ sound (lent store.now events.now ends.now words.now) }
{
    eventlog::is_sound(*store, events, ends, words)
}

// Add and read look alike: C has a name for each.
#[unsafe(no_mangle)]
pub extern "C" fn budgieleaf_add(
    store: &mut Store,
    events: &mut [u8],
    ends: &mut [u32],
    words: &mut [u32],
    trace: &[u8],
    answer: &mut [u64; ANSWER],
) -> u32
    ensures { CalledFromC (lent store.old events.old ends.old words.old) (add_of trace.now) (to_c result answer.new [])
        (lent store.new events.new ends.new words.new) }
{
    put(answer, eventlog::add(store, events, ends, words, trace))
}

#[unsafe(no_mangle)]
pub extern "C" fn budgieleaf_read(
    store: &mut Store,
    events: &mut [u8],
    ends: &mut [u32],
    words: &mut [u32],
    log: &[u8],
    answer: &mut [u64; ANSWER],
) -> u32
    ensures { CalledFromC (lent store.old events.old ends.old words.old) (read_of log.now) (to_c result answer.new [])
        (lent store.new events.new ends.new words.new) }
{
    put(answer, columns::read(store, events, ends, words, log))
}

#[unsafe(no_mangle)]
pub extern "C" fn budgieleaf_find(
    store: &Store,
    events: &[u8],
    ends: &[u32],
    words: &[u32],
    threshold: u32,
    confidence: u32,
    list: &mut [u16],
    answer: &mut [u64; ANSWER],
) -> u32
    ensures { CalledFromC (lent store.now events.now ends.now words.now) (find_of (record { threshold = threshold; confidence = confidence }) list.old)
        (to_c result answer.new list.new) (lent store.exit.now events.exit.now ends.exit.now words.exit.now) }
{
    let settings = Settings {
        threshold,
        confidence,
    };
    put(
        answer,
        discovery::find(*store, events, ends, words, settings, list),
    )
}

#[unsafe(no_mangle)]
pub extern "C" fn budgieleaf_watch_start(
    n: u32,
    watcher: &mut Watcher,
    constraints: &[u16],
    states: &mut [u8; MOST_CONSTRAINTS],
    told: &mut [u8; MOST_CONSTRAINTS],
) -> u32
    ensures { Returned (Starts n constraints.now (watched watcher.old states.old told.old))
        result (watched watcher.new states.new told.new) }
{
    put_record(watcher, watcher::start(n, constraints, states, told))
}

#[unsafe(no_mangle)]
pub extern "C" fn budgieleaf_watch_step(
    watcher: &mut Watcher,
    constraints: &[u16],
    states: &mut [u8; MOST_CONSTRAINTS],
    told: &mut [u8; MOST_CONSTRAINTS],
    activity: u32,
) -> u32
    ensures { Returned (Steps constraints.now (watched watcher.old states.old told.old) activity)
        result (watched watcher.new states.new told.new) }
{
    number(&watcher::step(watcher, constraints, states, told, activity))
}
