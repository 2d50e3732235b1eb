ghost use Rattle.std.specs.Prelude.{◌≡◌, ◌+◌, ◌<◌, ◌≤◌, ◌^◌, [], ◌∷◌, ◌++◌, length, max, ◌==◌, slice_get, Some, OnOk, OnErr, IfSome, MatchOption};
ghost use Rattle.volume_model.specs.Faults.{last_count};
ghost use Rattle.volume_model.specs.Modes.{mode_of, source_of, HasNoSource, IsSource};
ghost use Rattle.volume_model.specs.Names.{is_used_in, is_live_in};
ghost use Rattle.journal_book.specs.Book.{modes_of, layers_of, names_of};
ghost use Rattle.packed_bytes.specs.Packed.{packed};
ghost use Rattle.packed_entries.specs.Plain.{data_of};
ghost use Rattle.packed_entries.specs.View.{entry_seen};

use crate::faults::{LastCount, count_in, follow_faults};
use crate::layers::layers_after;
use crate::modes::follow_modes;
use crate::names::follow_names;
use crate::opening::Opening;
use crate::shown::Shown;
use crate::taken::{NameMap, is_live, is_used};
use mode_table::ModeTable;
use packed_entries::{EntryView, PackedEntries};
use std::alloc::{AllocError, Global};
use std::marker::Model;
use volume_model::{Entry, LayerName, Mode};

/// The entries of a run in their order. Contracts see how it began, the list, how many places are made beyond it, and for
/// how many bytes of data.
#[derive(Drop)]
pub struct Journal {
    opening: Shown<Opening>,
    entries: PackedEntries,
    modes: ModeTable,
    layers: u64,
    names: NameMap,
    /// One for each line that has shown a fault.
    lines: Vec<LastCount>,
}

impl Model for Journal {
    ghost use Rattle.journal_book.specs.Book.{Book};

    ghost Value = { Book };

    ghost view = { λ j. record {
      opening = j.opening.value;
      entries = j.entries.entries;
      spare = j.entries.spare;
      spare_data = j.entries.spare_data;
    } };

    ghost use Rattle.journal_book.specs.Kept.{IsLeft, IsRoomy};

    ghost invariant = { λ j. IsLeft j × IsRoomy j };
}

impl Journal {
    /// An empty journal of a run that begins so, with no place made. It takes no memory.
    pub fn new(alloc: Global, opening: Opening) -> Self
        ensures opening { result.opening ≡ opening }
        ensures entries { result.entries ≡ [] }
        ensures spare { result.spare ≡ 0 }
        ensures spare_data { result.spare_data ≡ 0 }
    {
        Journal {
            opening: Shown::of(&opening),
            entries: PackedEntries::new(alloc),
            modes: opening.modes,
            layers: u64::from(opening.layers),
            names: opening.names.map,
            lines: Vec::new(alloc),
        }
    }

    /// Makes places for at least so many entries more.
    pub fn reserve(&mut self, additional: u64) -> Result<(), AllocError>
        ensures ok { OnOk result (self.new.spare ≡ max self.old.spare additional) }
        ensures same { self.new ≡ record self.old { spare = self.new.spare } }
        ensures err { OnErr result (self.new ≡ self.old) }
    {
        if self.entries.spare() < additional {
            self.names.reserve(additional as usize)?;
            self.lines.reserve(additional as usize)?;
        }
        self.entries.reserve(additional)
    }

    /// Makes place for at least so many bytes more that calls write or read.
    pub fn reserve_data(&mut self, additional: u64) -> Result<(), AllocError>
        ensures ok { OnOk result (self.new.spare_data ≡ max self.old.spare_data additional) }
        ensures same { self.new ≡ record self.old { spare_data = self.new.spare_data } }
        ensures err { OnErr result (self.new ≡ self.old) }
    {
        self.entries.reserve_data(additional)
    }

    /// Makes places for at least so many entries more and for at least so many bytes, or changes nothing.
    pub fn reserve_both(&mut self, additional: u64, additional_data: u64) -> Result<(), AllocError>
        ensures ok { OnOk result (self.new ≡ record self.old {
          spare = max self.old.spare additional;
          spare_data = max self.old.spare_data additional_data;
        }) }
        ensures err { OnErr result (self.new ≡ self.old) }
    {
        if self.entries.spare() < additional {
            self.names.reserve(additional as usize)?;
            self.lines.reserve(additional as usize)?;
        }
        self.entries.reserve_both(additional, additional_data)
    }

    /// For how many bytes there is place before it is made again.
    pub fn spare_data(&self) -> u64
        ensures value { result ≡ self.now.spare_data }
        ensures most { result < 2 ^ 32 }
    {
        self.entries.spare_data()
    }

    /// How many entries can be pushed before places are made again.
    pub fn spare(&self) -> u64
        ensures value { result ≡ self.now.spare }
        ensures most { result < 2 ^ 63 }
    {
        self.entries.spare()
    }

    /// Puts an entry at the end, in a place that was made before. It takes no memory.
    pub fn push_reserved(&mut self, entry: Entry)
        requires spare { 0 < self.old.spare }
        requires spare_data { length (data_of entry) ≤ self.old.spare_data }
        ensures opening { self.new.opening ≡ self.old.opening }
        ensures entries { self.new.entries ≡ self.old.entries ++ entry ∷ [] }
        ensures spare { self.new.spare + 1 ≡ self.old.spare }
        ensures spare_data { self.new.spare_data + length (packed (data_of entry)) ≡ self.old.spare_data }
    {
        // How many there can be, a proof learns here.
        let _count = self.entries.len();
        follow_modes(&mut self.modes, &entry);
        self.layers = layers_after(self.layers, &entry);
        follow_names(&mut self.names, &entry);
        follow_faults(&mut self.lines, &entry);
        // Most are answers that are kept without being moved.
        if self.entries.push_plain(&entry) {
            return;
        }
        self.entries.push(entry);
    }

    /// The mode of each replica, after all entries.
    pub fn modes(&self) -> &[Mode]
        ensures { result.now ≡ modes_of self.now }
    {
        self.modes.as_slice()
    }

    /// The mode of a replica, after all entries; one that is not there has failed.
    pub fn mode(&self, replica: u8) -> Mode
        ensures { result ≡ mode_of (modes_of self.now) replica }
    {
        self.modes.mode(replica)
    }

    /// The lowest replica that is read and written, after all entries.
    pub fn source(&self) -> Option<u8>
        ensures value { result ≡ source_of (modes_of self.now) }
        ensures found { MatchOption result
            (HasNoSource (modes_of self.now)) (IsSource (modes_of self.now)) }
        ensures within { IfSome result (λ replica. replica < length (modes_of self.now)) }
    {
        self.modes.source()
    }

    /// How many replicas there are, failed ones among them.
    pub fn replica_count(&self) -> u8
        ensures value { result ≡ length (modes_of self.now) }
        ensures most { result ≤ 8 }
    {
        self.modes.replica_count()
    }

    /// The count that the last fault mark of a stream's line to a replica tells, and 0 where there is none.
    pub fn last_count(&self, stream: u8, replica: u8) -> u64
        ensures { result ≡ last_count stream replica self.now.entries }
    {
        count_in(&self.lines, stream, replica)
    }

    /// How many layers there are after all entries, the head counted.
    pub fn layers(&self) -> u64
        ensures { result ≡ layers_of self.now }
    {
        self.layers
    }

    /// Whether a snapshot was taken under the name.
    pub fn used(&self, name: &LayerName) -> bool
        ensures { result ≡ is_used_in (names_of self.now) name.now }
    {
        is_used(&self.names, name)
    }

    /// Whether the snapshot of the name can be used.
    pub fn live(&self, name: &LayerName) -> bool
        ensures { result ≡ is_live_in (names_of self.now) name.now }
    {
        is_live(&self.names, name)
    }

    /// How many entries there are.
    pub fn len(&self) -> u64
        ensures value { result ≡ length self.now.entries }
        ensures most { result < 2 ^ 63 }
    {
        self.entries.len()
    }

    pub fn is_empty(&self) -> bool
        ensures { result ≡ (length self.now.entries == 0) }
    {
        self.entries.len() == 0
    }

    /// The entry at a place.
    pub fn entry(&self, place: u64) -> EntryView<'_>
        requires { place < length self.now.entries }
        ensures { slice_get self.now.entries place ≡ Some (entry_seen result) }
    {
        self.entries.entry(place)
    }
}
