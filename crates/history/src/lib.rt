// The four calls, handed on as they are, the record and its buffers lent apart as C lends them. Each promises `Called`, a step of a
// history, so that what is proved of histories is about this code.
#![tactic(auto)]

ghost use Rattle.answers.specs.Answers.{done_said, count_said};
ghost use Rattle.eventlog.specs.Store.{Memory, lent, with_store};
ghost use Rattle.eventlog.specs.Calls.{open_said, opened};
ghost use Rattle.discovery.specs.Calls.{find_said};
ghost use Rattle.history.specs.Ledger.{only, open_for, add as add_of, read as read_of, find as find_of};
ghost use Rattle.history.specs.Histories.{Called};

use answers::Refusal;
use discovery::Found;
use eventlog::Store;
use pruning::Settings;

pub fn open(n: u32) -> Result<Store, Refusal>
    ensures { (m : Memory) → Called m (open_for n) (only (open_said result)) (with_store (opened m.store result) m) }
{
    eventlog::open(n)
}

pub fn add(
    store: &mut Store,
    events: &mut [u8],
    ends: &mut [u32],
    words: &mut [u32],
    trace: &[u8],
) -> Result<(), Refusal>
    ensures { Called (lent store.old events.old ends.old words.old) (add_of trace.now) (only (done_said result))
        (lent store.new events.new ends.new words.new) }
{
    eventlog::add(store, events, ends, words, trace)
}

pub fn read(
    store: &mut Store,
    events: &mut [u8],
    ends: &mut [u32],
    words: &mut [u32],
    log: &[u8],
) -> Result<usize, Refusal>
    ensures { Called (lent store.old events.old ends.old words.old) (read_of log.now) (only (count_said result))
        (lent store.new events.new ends.new words.new) }
{
    columns::read(store, events, ends, words, log)
}

pub fn find(
    store: Store,
    events: &[u8],
    ends: &[u32],
    words: &[u32],
    settings: Settings,
    list: &mut [u16],
) -> Result<Found, Refusal>
    ensures { Called (lent store events.now ends.now words.now) (find_of settings list.old)
        (record { said = find_said result; list = list.new }) (lent store events.exit.now ends.exit.now words.exit.now) }
{
    discovery::find(store, events, ends, words, settings, list)
}
