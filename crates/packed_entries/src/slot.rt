ghost use Rattle.std.specs.Prelude.{◌≡◌, ◌+◌, ◌<◌, ◌≤◌, ◌^◌, ◌++◌, ◌∷◌, [], length, MatchOption};
ghost use Rattle.packed_bytes.specs.Packed.{packed};
ghost use Rattle.packed_bytes.specs.Place.{IsPut, IsLeft};
ghost use Rattle.packed_entries.specs.Plain.{data_of};
ghost use Rattle.packed_entries.specs.Slots.{IsKept, IsKeptPlain};

use crate::plain::{Plain, data_of, plain_of};
use packed_bytes::{Data, Place, put_plain, put_shorter};
use segment_list::Segments;
use volume_model::{Answer, Call, Entry};

/// A list up to this length is copied where it could be shared: an entry that is kept whole takes more.
const MOST_COPIED: usize = size_of::<Entry>();

/// What is kept of an entry: of most all, and else where the entry itself stands among those that are rare.
#[derive(Clone, Copy, Debug)]
pub(crate) enum Slot {
    Plain(Plain),
    Rare(u64),
}

const _: () = prove!(size_of::<Slot>() == 56);

/// Keeps an entry, and says how many bytes its list takes, or counts for.
pub(crate) fn keep(store: &mut Data, rares: &mut Segments<Entry, 256>, entry: Entry) -> (Slot, u32)
    requires place { 0 < rares.old.room }
    requires short { length (data_of entry) < 2 ^ 32 }
    requires room { length (data_of entry) ≤ store.old.room }
    ensures kept { IsKept store.old.items store.new.items rares.old.items rares.new.items entry
        result.0 }
    ensures taken { result.1 ≡ length (packed (data_of entry)) }
    ensures room { store.old.room ≤ store.new.room + result.1 }
    ensures places { rares.old.room ≤ rares.new.room + 1 }
{
    match keep_plain(store, &entry) {
        Some(plain) => (Slot::Plain(plain), plain.place.taken),
        None => {
            let taken = data_of(&entry).len() as u32;
            (keep_whole(rares, entry), taken)
        }
    }
}

/// Puts the list of an answer of which most is kept, and gives what is kept of it. Of another entry, and of one whose
/// list is not put, nothing is.
pub(crate) fn keep_plain(store: &mut Data, entry: &Entry) -> Option<Plain>
    requires short { length (data_of entry.now) < 2 ^ 32 }
    requires room { length (data_of entry.now) ≤ store.old.room }
    ensures { MatchOption result (IsLeft store.old store.new (data_of entry.now))
        (IsKeptPlain store.old store.new entry.now) }
{
    let place = put_list(store, entry)?;
    plain_of(entry, place)
}

/// Puts the list of an entry, unless it is a write's whose runs are not shorter: its bytes are shared with its stream.
/// Then nothing is put, and it counts as if it were.
fn put_list(store: &mut Data, entry: &Entry) -> Option<Place>
    requires short { length (data_of entry.now) < 2 ^ 32 }
    requires room { length (data_of entry.now) ≤ store.old.room }
    ensures { MatchOption result (IsLeft store.old store.new (data_of entry.now))
        (IsPut store.old store.new (data_of entry.now)) }
{
    let list = data_of(entry);
    if let Some(place) = put_shorter(store, list) {
        return Some(place);
    }
    match entry {
        Entry::Answer(
            Answer {
                call: Call::Write { .. },
                ..
            },
        ) if list.len() > MOST_COPIED => None,
        _ => Some(put_plain(store, list)),
    }
}

/// Keeps an entry as it is.
fn keep_whole(rares: &mut Segments<Entry, 256>, entry: Entry) -> Slot
    requires { 0 < rares.old.room }
    ensures slot { result ≡ Slot.Rare (length rares.old.items) }
    ensures rares { rares.new.items ≡ rares.old.items ++ entry ∷ [] }
    ensures room { rares.old.room ≡ rares.new.room + 1 }
{
    let i = rares.len() as u64;
    rares.push(entry);
    Slot::Rare(i)
}
