ghost use Rattle.std.specs.Prelude.{◌≡◌, ◌<◌, ◌≤◌, ◌++◌, true, false, length, All, MatchOption, OnOk};
ghost use Rattle.image_runs.specs.Runs.{runs};
ghost use Rattle.image_runs.specs.Printing.{with_commas, IsPrefixOf};
ghost use Rattle.packed_bytes.specs.Packed.{is_shorter, part};
ghost use Rattle.packed_bytes.specs.Place.{IsPlace, list_at};

use crate::Data;
use crate::each_run::EachRun;
use crate::plain_list::PlainList;
use crate::print::{append_coded, append_plain};
use std::alloc::AllocError;
use std::marker::Model;

/// Where a list stands: from which place on, how many bytes it takes, and how many it is. It is kept as runs where it
/// takes fewer than it is.
#[derive(Clone, Copy, Debug)]
pub struct Place {
    pub at: u64,
    pub taken: u32,
    pub count: u32,
}

/// A list that was put. Contracts see the list.
#[derive(Drop)]
pub struct PackedList<'a> {
    store: &'a Data,
    place: Place,
}

impl<'a> Model for PackedList<'a> {
    ghost use Rattle.std.specs.Prelude.{List, ℕ};
    ghost use Rattle.packed_bytes.specs.Place.{IsPlace, list_at};

    ghost Value = { List ℕ };

    ghost view = { λ l. list_at l.store.now.items l.place };

    ghost invariant = { λ l. IsPlace l.store.now.items l.place };
}

impl<'a> PackedList<'a> {
    /// The list that stands there.
    pub fn at(store: &'a Data, place: Place) -> PackedList<'a>
        requires { IsPlace store.now.items place }
        ensures { result ≡ list_at store.now.items place }
    {
        PackedList { store, place }
    }

    /// The same once more.
    pub fn again(&self) -> PackedList<'a>
        ensures { result ≡ self.now }
    {
        PackedList {
            store: self.store,
            place: self.place,
        }
    }

    /// How many bytes it is.
    pub fn len(&self) -> usize
        ensures { result ≡ length self.now }
    {
        self.place.count as usize
    }

    /// Looks at each chunk in which it lies, and does nothing: that its bytes are bytes, a proof learns here.
    pub fn know(&self)
        ensures { All (λ b. b < 256) self.now }
    {
        // How much there is, a proof learns here.
        let _length = self.store.len();
        let at = self.place.at as usize;
        know_part(self.store, at, at + self.place.taken as usize);
    }

    /// Whether it is kept as its runs: they are shorter.
    pub fn is_packed(&self) -> bool
        ensures { result ≡ is_shorter self.now }
    {
        self.place.taken < self.place.count
    }

    /// The list, where it is kept as it is.
    pub fn plain(&self) -> Option<PlainList<'a>>
        ensures { MatchOption result (is_shorter self.now ≡ true)
            (λ plain. (is_shorter self.now ≡ false) × (plain ≡ self.now)) }
    {
        if self.is_packed() {
            return None;
        }
        // How much there is, a proof learns here.
        let _length = self.store.len();
        let at = self.place.at as usize;
        let until = at + self.place.taken as usize;
        Some(PlainList::between(self.store, at, until))
    }

    /// Its runs, each as long as can be.
    pub fn runs(&self) -> EachRun<'a>
        ensures { result ≡ runs self.now }
    {
        EachRun::of(self.store, self.place)
    }

    /// Appends its runs as text, a comma behind each. Some of them stand there where memory runs out.
    pub(crate) fn append_runs(&self, into: &mut Vec<u8>) -> Result<(), AllocError>
        ensures ok { OnOk result (into.new.items ≡ into.old.items ++ with_commas (runs self.now)) }
        ensures kept { IsPrefixOf into.old.items into.new.items }
    {
        // How much there is, a proof learns here.
        let _length = self.store.len();
        let at = self.place.at as usize;
        let until = at + self.place.taken as usize;
        if self.is_packed() {
            append_coded(self.store, at, until, into)
        } else {
            append_plain(self.store, at, until, into)
        }
    }
}

/// The same of what stands from a place on until another.
fn know_part(store: &Data, at: usize, until: usize)
    requires order { at ≤ until }
    requires within { until ≤ length store.now.items }
    ensures { All (λ b. b < 256) (part store.now.items at until) }
{
    // How much there is, a proof learns here.
    let _length = store.len();
    let mut next = at;
    while next < until {
        next += count_of(store.piece(next));
    }
}

fn count_of(bytes: &[u8]) -> usize
    ensures value { result ≡ length bytes.now }
    ensures bytes { All (λ b. b < 256) bytes.now }
{
    bytes.len()
}
