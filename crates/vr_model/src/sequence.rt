//! A list of values, which contracts see as the list.

ghost use Rattle.std.specs.Prelude.{◌≡◌, ◌<◌, ◌≤◌, ◌==◌, [], ◌∷◌, ◌++◌, length, take, insert, remove, slice_get};
ghost use Rattle.std.specs.Prelude.{slice_index_or, slice_set, IfOk, IfNone, IfSome, OnOk, OnErr, Some};
ghost use Rattle.std.specs.List.{swap as swapped};
ghost use Rattle.std.specs.Slice.Iter.{iter_rest};
ghost use Rattle.std.specs.Iterator.Adapters.{IterYieldsInOrder, IterYieldsInReverse};

use crate::NoMemory;
use std::alloc::Global;
use std::marker::Model;
use std::slice::Iter;

/// A list over a vector. Contracts see the list of its values.
#[derive(Drop)]
pub struct Seq<T> {
    items: Vec<T>,
}

impl<T> Model for Seq<T> {
    ghost use Rattle.std.specs.Prelude.{List};

    ghost Value = { List T };

    ghost view = { λ s. s.items.items };
}

impl<T> Seq<T> {
    /// The empty list; it takes no memory.
    pub fn new(alloc: Global) -> Seq<T>
        ensures { result ≡ [] }
    {
        Seq {
            items: Vec::new(alloc),
        }
    }

    /// The empty list, with room for `n` values.
    pub fn with_capacity(alloc: Global, n: usize) -> Result<Seq<T>, NoMemory>
        ensures { IfOk result (λ s. s ≡ []) }
    {
        Ok(Seq {
            items: Vec::with_capacity(alloc, n)?,
        })
    }

    /// How many values there are.
    pub fn len(&self) -> usize
        ensures { result ≡ length self.now }
    {
        self.items.len()
    }

    /// Whether there is no value.
    pub fn is_empty(&self) -> bool
        ensures { result ≡ (length self.now == 0) }
    {
        self.items.is_empty()
    }

    /// The value at a place, counted from 0.
    pub fn get(&self, k: usize) -> &T
        requires { k < length self.now }
        ensures some { slice_get self.now k ≡ Some result.now }
        ensures value { (d : T) → slice_index_or self.now k d ≡ result.now }
    {
        &self.items[k]
    }

    /// The values in order.
    pub fn as_slice(&self) -> &[T]
        ensures { result.now ≡ self.now }
    {
        &self.items
    }

    /// An iterator over the values, in order.
    pub fn iter(&self) -> Iter<'_, T>
        ensures rest { iter_rest result ≡ self.now }
        ensures runs { IterYieldsInOrder T }
        ensures runs_back { IterYieldsInReverse T }
    {
        self.items.iter()
    }

    /// Puts a value at the end. When out of memory, the list stays as it was, and the value is dropped.
    pub fn push(&mut self, t: T) -> Result<(), NoMemory>
    where
        T: Drop,
        ensures ok { OnOk result (self.new ≡ self.old ++ t ∷ []) }
        ensures err { OnErr result (self.new ≡ self.old) }
    {
        self.items.push(t)?;
        Ok(())
    }

    /// Takes the last value out, if there is one. Tests alone call it.
    pub fn pop(&mut self) -> Option<T>
        ensures none { IfNone result (self.old ≡ []) }
        ensures some { IfSome result (λ t. self.old ≡ self.new ++ t ∷ []) }
    {
        self.items.pop()
    }

    /// Puts a value before the value at a place, or at the end. When out of memory, the list stays as it was, and the
    /// value is dropped. Tests alone call it.
    pub fn insert(&mut self, k: usize, t: T) -> Result<(), NoMemory>
    where
        T: Drop,
        requires { k ≤ length self.old }
        ensures ok { OnOk result (self.new ≡ insert self.old k t) }
        ensures err { OnErr result (self.new ≡ self.old) }
    {
        self.items.insert(k, t)?;
        Ok(())
    }

    /// Puts copies of values at the end, in order. When out of memory, the list stays as it was.
    pub fn extend_from_slice(&mut self, more: &[T]) -> Result<(), NoMemory>
    where
        T: Copy,
        ensures ok { OnOk result (self.new ≡ self.old ++ more.now) }
        ensures err { OnErr result (self.new ≡ self.old) }
    {
        self.items.extend_from_slice(more)?;
        Ok(())
    }

    /// Takes the value at a place out. Those after it move one place to the front. Tests alone call it.
    pub fn remove(&mut self, k: usize) -> T
        requires { k < length self.old }
        ensures value { slice_get self.old k ≡ Some result }
        ensures rest { self.new ≡ remove self.old k }
    {
        self.items.remove(k)
    }

    /// Puts another value at a place.
    pub fn set(&mut self, k: usize, t: T)
    where
        T: Drop,
        requires { k < length self.old }
        ensures { self.new ≡ slice_set self.old k t }
    {
        self.items[k] = t;
    }

    /// Lets the values at two places change places.
    pub fn swap(&mut self, i: usize, j: usize)
        requires first { i < length self.old }
        requires second { j < length self.old }
        ensures { self.new ≡ swapped self.old i j }
    {
        self.items.swap(i, j);
    }

    /// Drops all but the first `n` values; a shorter list stays as it was.
    pub fn truncate(&mut self, n: usize)
    where
        T: Drop,
        ensures { self.new ≡ take n self.old }
    {
        self.items.truncate(n);
    }
}

impl<T> From<Vec<T>> for Seq<T> {
    ghost from_gives = { λ items seq. seq ≡ items.items };

    /// The same values; nothing is copied.
    fn from(items: Vec<T>) -> Seq<T> {
        Seq { items }
    }
}
