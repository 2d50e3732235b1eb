ghost use Rattle.std.specs.Prelude.{◌≡◌, ◌+◌, ◌<◌, ◌≤◌, ◌^◌, ◌++◌, ◌∷◌, [], length, max, true, false, slice_get, Some, OnOk, OnErr};
ghost use Rattle.packed_bytes.specs.Packed.{packed};
ghost use Rattle.packed_entries.specs.Listed.{HasPushed};
ghost use Rattle.packed_entries.specs.Plain.{data_of};
ghost use Rattle.packed_entries.specs.View.{entry_seen};

use crate::slot::{Slot, keep, keep_plain};
use crate::view::{EntryView, seen_plain, seen_whole};
use packed_bytes::Data;
use segment_list::Segments;
use std::alloc::{AllocError, Global};
use std::marker::Model;
use volume_model::Entry;

/// The most data that places can be made for.
const MOST_DATA: u64 = (1 << 32) - 1;

/// A list of entries. Contracts see the list, how many more there are places for, and for how much data.
#[derive(Drop)]
pub struct PackedEntries {
    slots: Segments<Slot, 256>,
    rares: Segments<Entry, 256>,
    store: Data,
    spare: u64,
    spare_data: u64,
}

impl Model for PackedEntries {
    ghost use Rattle.packed_entries.specs.Listed.{Listed};

    ghost Value = { Listed };

    ghost use Rattle.packed_entries.specs.Slots.{entries_in, IsRoomy};

    ghost view = { λ e. record {
      entries = entries_in e.store.items e.rares.items e.slots.items;
      spare = e.spare;
      spare_data = e.spare_data;
    } };

    ghost invariant = { IsRoomy };
}

impl PackedEntries {
    /// No entry, and no place. It takes no memory.
    pub fn new(alloc: Global) -> Self
        ensures { result ≡ record { entries = []; spare = 0; spare_data = 0 } }
    {
        PackedEntries {
            slots: Segments::new(alloc),
            rares: Segments::new(alloc),
            store: Segments::new(alloc),
            spare: 0,
            spare_data: 0,
        }
    }

    /// Makes places for at least so many entries more.
    pub fn reserve(&mut self, additional: u64) -> Result<(), AllocError>
        ensures ok { OnOk result (self.new.spare ≡ max self.old.spare additional) }
        ensures same { self.new ≡ record self.old { spare = self.new.spare } }
        ensures err { OnErr result (self.new ≡ self.old) }
    {
        if self.spare < additional {
            self.slots.reserve(additional as usize)?;
            self.rares.reserve(additional as usize)?;
            self.spare = additional;
        }
        Ok(())
    }

    /// Makes place for at least so much data more.
    pub fn reserve_data(&mut self, additional: u64) -> Result<(), AllocError>
        ensures ok { OnOk result (self.new.spare_data ≡ max self.old.spare_data additional) }
        ensures same { self.new ≡ record self.old { spare_data = self.new.spare_data } }
        ensures err { OnErr result (self.new ≡ self.old) }
    {
        if additional > MOST_DATA {
            return Err(AllocError);
        }
        if self.spare_data < additional {
            self.store.reserve(additional as usize)?;
            self.spare_data = additional;
        }
        Ok(())
    }

    /// Makes places for at least so many entries more and for so much data more, or changes nothing.
    pub fn reserve_both(&mut self, additional: u64, additional_data: u64) -> Result<(), AllocError>
        ensures ok { OnOk result (self.new ≡ record self.old {
          spare = max self.old.spare additional;
          spare_data = max self.old.spare_data additional_data;
        }) }
        ensures err { OnErr result (self.new ≡ self.old) }
    {
        let spare = self.spare;
        self.reserve(additional)?;
        let made = self.reserve_data(additional_data);
        if made.is_err() {
            // Places that nobody knows of are made again without cost.
            self.spare = spare;
        }
        made
    }

    pub fn spare(&self) -> u64
        ensures value { result ≡ self.now.spare }
        ensures most { result < 2 ^ 63 }
    {
        // That these are fewer, a proof learns here.
        let _room = self.slots.room();
        self.spare
    }

    /// For how much data there is place.
    pub fn spare_data(&self) -> u64
        ensures value { result ≡ self.now.spare_data }
        ensures most { result < 2 ^ 32 }
    {
        self.spare_data
    }

    /// How many entries there are.
    pub fn len(&self) -> u64
        ensures value { result ≡ length self.now.entries }
        ensures most { result < 2 ^ 63 }
    {
        self.slots.len() as u64
    }

    /// Puts an entry at the end, in a place that was made before. It takes no memory. Those that `push_plain` leaves are
    /// few.
    #[inline(never)]
    pub fn push(&mut self, entry: Entry)
        requires spare { 0 < self.old.spare }
        requires spare_data { length (data_of entry) ≤ self.old.spare_data }
        ensures entries { self.new.entries ≡ self.old.entries ++ entry ∷ [] }
        ensures spare { self.new.spare + 1 ≡ self.old.spare }
        ensures spare_data { self.new.spare_data + length (packed (data_of entry)) ≡ self.old.spare_data }
    {
        let (slot, taken) = keep(&mut self.store, &mut self.rares, entry);
        self.slots.push(slot);
        self.spare -= 1;
        self.spare_data -= u64::from(taken);
    }

    /// Puts an answer of which most is kept at the end, in a place that was made before. Of another entry it does nothing,
    /// and says no: that one is to be moved. It takes no memory.
    pub fn push_plain(&mut self, entry: &Entry) -> bool
        requires spare { 0 < self.old.spare }
        requires spare_data { length (data_of entry.now) ≤ self.old.spare_data }
        ensures pushed { result ≡ true → HasPushed self.old self.new entry.now }
        ensures same { result ≡ false → self.new ≡ self.old }
    {
        let Some(plain) = keep_plain(&mut self.store, entry) else {
            return false;
        };
        self.slots.push(Slot::Plain(plain));
        self.spare -= 1;
        self.spare_data -= u64::from(plain.place.taken);
        true
    }

    /// The entry at a place.
    pub fn entry(&self, place: u64) -> EntryView<'_>
        requires { place < length self.now.entries }
        ensures { slice_get self.now.entries place ≡ Some (entry_seen result) }
    {
        match self.slots.get(place as usize) {
            Slot::Plain(plain) => seen_plain(&self.store, plain),
            Slot::Rare(i) => seen_whole(self.rares.get(*i as usize)),
        }
    }
}
