ghost use Rattle.std.specs.Prelude.{◌≡◌, ◌+◌, ◌<◌, ◌≤◌, ◌^◌, ◌++◌, ◌∷◌, [], length, take, slice_get, Some, OnOk, OnErr};
ghost use Rattle.segment_list.specs.Listed.{IsPiece};

use std::alloc::{AllocError, Global};
use std::marker::Model;

/// The most elements that a list can have.
const MOST: usize = (1 << 63) - 1;

/// A list that grows at its end. Contracts see the list, and how many elements there is room for.
#[derive(Drop)]
pub struct Segments<T, const SIZE: usize> {
    segments: Vec<Vec<T>>,
    len: usize,
    room: usize,
}

impl<T, const SIZE: usize> Model for Segments<T, SIZE> {
    ghost use Rattle.segment_list.specs.Listed.{Listed, listed_code};

    ghost Value = { Listed T };

    ghost coded = { listed_code T.code };

    ghost use Rattle.segment_list.specs.Cut.{IsWhole, items_of};

    ghost view = { λ s. record { items = items_of s.segments.items; room = s.room } };

    ghost invariant = { λ s. IsWhole SIZE s.len s.room s.segments.items };
}

impl<T: Drop, const SIZE: usize> Segments<T, SIZE> {
    /// An empty list, with no room. It takes no memory.
    pub fn new(alloc: Global) -> Self
        requires { 0 < SIZE }
        ensures { result ≡ record { items = []; room = 0 } }
    {
        Segments {
            segments: Vec::new(alloc),
            len: 0,
            room: 0,
        }
    }

    /// Makes room for at least so many elements more.
    pub fn reserve(&mut self, additional: usize) -> Result<(), AllocError>
        ensures items { self.new.items ≡ self.old.items }
        ensures ok { OnOk result (additional ≤ self.new.room) }
        ensures more { self.old.room ≤ self.new.room }
        ensures same { additional ≤ self.old.room → self.new.room ≡ self.old.room }
        ensures most { self.old.room < additional → self.new.room < additional + SIZE }
    {
        while self.room() < additional {
            self.add_segment()?;
        }
        Ok(())
    }

    /// Makes one segment more.
    fn add_segment(&mut self) -> Result<(), AllocError>
        ensures items { self.new.items ≡ self.old.items }
        ensures ok { OnOk result (self.new.room ≡ self.old.room + SIZE) }
        ensures more { OnOk result (self.old.room < self.new.room) }
        ensures err { OnErr result (self.new.room ≡ self.old.room) }
    {
        if MOST - self.len - self.room < SIZE {
            return Err(AllocError);
        }
        let alloc = *self.segments.allocator();
        let segment = Vec::with_capacity(alloc, SIZE)?;
        self.segments.reserve(1)?;
        self.segments.push(segment).unwrap();
        self.room += SIZE;
        Ok(())
    }

    /// How many elements there are.
    pub fn len(&self) -> usize
        ensures value { result ≡ length self.now.items }
        ensures most { result < 2 ^ 63 }
    {
        self.len
    }

    /// How many elements there is room for.
    pub fn room(&self) -> usize
        ensures value { result ≡ self.now.room }
        ensures most { result < 2 ^ 63 }
    {
        self.room
    }

    /// Puts an element at the end. It takes no memory.
    pub fn push(&mut self, item: T)
        requires { 0 < self.old.room }
        ensures items { self.new.items ≡ self.old.items ++ item ∷ [] }
        ensures room { self.new.room + 1 ≡ self.old.room }
    {
        let segment = &mut self.segments[self.len / SIZE];
        segment.push(item).unwrap();
        self.len += 1;
        self.room -= 1;
    }

    /// The elements from a place on, as far as its segment goes.
    pub fn piece(&self, place: usize) -> &[T]
        requires { place < length self.now.items }
        ensures { IsPiece place self.now.items result.now }
    {
        self.segments[place / SIZE].split_at(place % SIZE).1
    }

    /// The element at a place.
    pub fn get(&self, place: usize) -> &T
        requires { place < length self.now.items }
        ensures { slice_get self.now.items place ≡ Some result.now }
    {
        &self.piece(place)[0]
    }
}

impl<T: Copy + Drop, const SIZE: usize> Segments<T, SIZE> {
    /// Puts elements at the end. It takes no memory.
    pub fn append(&mut self, items: &[T])
        requires { length items.now ≤ self.old.room }
        ensures items { self.new.items ≡ self.old.items ++ items.now }
        ensures room { self.new.room + length items.now ≡ self.old.room }
    {
        let mut rest = items;
        while !rest.is_empty() {
            let count = self.append_some(rest);
            rest = rest.split_at(count).1;
        }
    }

    /// Puts the first of some elements at the end, as many as its segment takes, and says how many.
    fn append_some(&mut self, items: &[T]) -> usize
        requires some { 0 < length items.now }
        requires room { length items.now ≤ self.old.room }
        ensures some { 0 < result }
        ensures within { result ≤ length items.now }
        ensures items { self.new.items ≡ self.old.items ++ take result items.now }
        ensures room { self.new.room + result ≡ self.old.room }
    {
        let count = items.len().min(SIZE - self.len % SIZE);
        let segment = &mut self.segments[self.len / SIZE];
        segment.extend_from_slice(&items[..count]).unwrap();
        self.len += count;
        self.room -= count;
        count
    }
}
