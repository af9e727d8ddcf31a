// A store that is known to be sound.
ghost use Rattle.std.specs.Prelude.{◌≡◌, true};
ghost use Rattle.eventlog.specs.Store.{lent, sound};

use crate::{KeptParts, Room, Store};

// A record beside the buffers that it is sound with. The functions before the test are lent the four apart, as C lends them.
#[derive(Clone, Copy)]
pub struct SoundStore<'a> {
    pub store: Store,
    pub events: &'a [u8],
    pub ends: &'a [u32],
    pub words: &'a [u32],
    ghost is_sound: { sound (lent store events.now ends.now words.now) ≡ true },
}

impl<'a> SoundStore<'a> {
    ghost use Rattle.std.specs.Prelude.{◌≡◌, false, MatchOption};
    ghost use Rattle.eventlog.specs.Store.{lent, sound, kept, room as room_in};
    ghost use Rattle.eventlog.specs.SoundStore.{memory_of, traces_in};

    // The test for soundness.
    pub fn new(
        store: Store,
        events: &'a [u8],
        ends: &'a [u32],
        words: &'a [u32],
    ) -> Option<SoundStore<'a>>
        ensures { MatchOption result (sound (lent store events.now ends.now words.now) ≡ false)
            (λ s. memory_of s ≡ lent store events.now ends.now words.now) }
    {
        if crate::is_sound(store, events, ends, words) {
            Some(SoundStore {
                store,
                events,
                ends,
                words,
            })
        } else {
            None
        }
    }

    // What is left in it.
    pub fn room(self) -> Room
        ensures { result ≡ room_in (memory_of self.entry) }
    {
        crate::room_of(self.store, self.events, self.ends, self.words)
    }

    // What it keeps, without its record.
    pub fn kept(self) -> KeptParts<'a>
        ensures { traces_in result ≡ kept (memory_of self.entry) }
    {
        let traces = self.store.traces as usize;
        KeptParts {
            events: self.events,
            ends: &self.ends[..traces],
            words: &self.words[..traces],
        }
    }
}
