//! The list, and what an element says of its key.
ghost use Rattle.std.specs.Prelude.{◌≡◌, ℕ, ◌<◌, ◌≤◌, true, [], length, IfOk, if◌then◌else◌, Ok, Err, vec_len, vec_capacity, nat_lt};
ghost use Rattle.ordered.specs.Keys.{Inserted, ascending, inserted_by, place_by};
ghost use Rattle.std.specs.List.{remove, slice_get};

use std::alloc::{AllocError, Global};

/// An element that says by which number it is kept.
pub trait Keyed {
    ghost key: { Self → ℕ };

    fn key(&self) -> u32
        ensures { result ≡ key self.now };
}

/// At most `most` elements by ascending key, each put into its place; their memory is reserved at the start.
#[derive(Drop)]
pub struct Kept<T: Keyed> {
    items: Vec<T>,
    // Not a const parameter: that would ask callers to know it when they compile.
    most: usize,
    ghost within: { vec_len items ≤ most },
    ghost reserved: { most ≤ vec_capacity items },
    ghost ordered: { ascending T.Keyed.key items.items ≡ true },
}

impl<T: Keyed> Kept<T> {
    /// An empty list for at most `most` elements. Only this call can want memory.
    pub fn new(heap: Global, most: usize) -> Result<Self, AllocError>
        ensures { IfOk result (λ k. (k.items.items ≡ []) × (k.most ≡ most)) }
    {
        let items = Vec::with_capacity(heap, most)?;
        Ok(Kept { items, most })
    }

    /// The elements, by ascending key.
    pub fn as_slice(&self) -> &[T]
        ensures value { result.now ≡ self.now.items.items }
        ensures ordered { ascending T.Keyed.key result.now ≡ true }
    {
        self.items.as_slice()
    }

    /// Where an element of this key goes: before the first of a greater one.
    fn place(&self, key: u32) -> usize
        ensures value { result ≡ place_by T.Keyed.key key self.now.items.items }
        ensures within { result ≤ length self.now.items.items }
    {
        self.items.partition_point(|x| x.key() <= key)
    }

    /// Puts an element into its place by key; a full list hands it back and stays as it was.
    pub fn insert(&mut self, item: T) -> Result<(), T>
        ensures answer { result ≡ (if nat_lt (length self.old.items.items) self.old.most then Ok tt else Err item) }
        ensures items { self.new.items.items ≡ (if nat_lt (length self.old.items.items) self.old.most then inserted_by T.Keyed.key item self.old.items.items else self.old.items.items) }
        ensures most { self.new.most ≡ self.old.most }
        ensures law { Inserted T.Keyed.key item self.old.items.items (inserted_by T.Keyed.key item self.old.items.items) }
    {
        if self.most <= self.items.len() {
            return Err(item);
        }
        let at = self.place(item.key());
        match self.items.insert(at, item) {
            Ok(()) => Ok(()),
            Err(_) => unreachable(),
        }
    }

    /// Takes out the element at a place; none where the place is past the end.
    pub fn remove(&mut self, at: usize) -> Option<T>
        ensures value { result ≡ slice_get self.old.items.items at }
        ensures items { self.new.items.items ≡ remove self.old.items.items at }
        ensures most { self.new.most ≡ self.old.most }
    {
        if at >= self.items.len() {
            return None;
        }
        Some(self.items.remove(at))
    }
}
