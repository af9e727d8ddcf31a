// The kept parts of a sound store, and the traces that lie in them, one after the other.
ghost use Rattle.std.specs.Prelude.{◌≡◌, ◌≤◌, true, length, map};
ghost use Rattle.eventlog.specs.Store.{cut, rising, last_from, most_traces};
ghost use Rattle.eventlog.specs.Words.{word_of};

use std::marker::Model;

// The words of the traces that are kept, and no events. What counts traces by the activities that occur in them is lent these.
#[derive(Clone, Copy)]
pub struct KeptWords<'a> {
    pub words: &'a [u32],
    ghost few: { length words.now ≤ most_traces },
}

// The buffers of a sound store, the ends and the words cut to those of the traces that are kept. What goes over the traces is lent these, and no
// record.
#[derive(Clone, Copy)]
pub struct KeptParts<'a> {
    pub events: &'a [u8],
    pub ends: &'a [u32],
    pub words: &'a [u32],
    ghost rise: { rising 0 ends.now ≡ true },
    ghost fit: { last_from 0 ends.now ≤ length events.now },
    ghost few: { length ends.now ≤ most_traces },
    ghost of_traces: { words.now ≡ map word_of (cut 0 ends.now events.now) },
}

impl<'a> KeptParts<'a> {
    ghost use Rattle.std.specs.Prelude.{map};
    ghost use Rattle.eventlog.specs.SoundStore.{traces_in};
    ghost use Rattle.eventlog.specs.Words.{word_of};

    pub fn words(self) -> KeptWords<'a>
        ensures { result.words.now ≡ map word_of (traces_in self.entry) }
    {
        KeptWords { words: self.words }
    }
}

// What is left of the traces: each is the part of the events from the end before to its own.
#[derive(Drop)]
pub struct KeptTraces<'a> {
    events: &'a [u8],
    ends: &'a [u32],
    from: u32,
}

impl<'a> KeptTraces<'a> {
    ghost use Rattle.std.specs.Prelude.{◌≡◌, ◌≤◌, true, length};
    ghost use Rattle.eventlog.specs.Store.{cut, rising, last_from};

    // The traces that these ends cut off.
    pub(crate) fn cut(events: &'a [u8], ends: &'a [u32]) -> KeptTraces<'a>
        requires rise { rising 0 ends.now ≡ true }
        requires fit { last_from 0 ends.now ≤ length events.now }
        ensures { result ≡ cut 0 ends.now events.now }
    {
        KeptTraces {
            events,
            ends,
            from: 0,
        }
    }
}

impl<'a> Model for KeptTraces<'a> {
    ghost use Rattle.std.specs.Prelude.{◌≡◌, ◌≤◌, ℕ, List, true, length};
    ghost use Rattle.eventlog.specs.Store.{cut, rising, last_from};

    ghost Value = { List (List ℕ) };

    ghost view = { λ t. cut t.from t.ends.now t.events.now };

    ghost invariant = { λ t. (rising t.from t.ends.now ≡ true) × (last_from t.from t.ends.now ≤ length t.events.now) };
}

impl<'a> Iterator for KeptTraces<'a> {
    ghost use Rattle.std.specs.Iterator.{YieldsFirstRef, item_count};

    type Item = &'a [u8];

    ghost next_gives = { YieldsFirstRef (λ traces. traces) };

    ghost remaining = { item_count (λ traces. traces) };

    fn next(&mut self) -> Option<&'a [u8]> {
        let (&end, ends) = self.ends.split_first()?;
        let trace = &self.events[self.from as usize..end as usize];
        self.ends = ends;
        self.from = end;
        Some(trace)
    }
}
