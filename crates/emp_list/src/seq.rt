//! A list of values.
ghost use Rattle.std.specs.Prelude.{◌≡◌, ◌<◌, ◌+◌, [], ◌∷◌, ◌++◌, length, IfOk, OnErr, OnOk, IfSome, IfNone, slice_index_or, slice_set, slice_get};

use crate::memory::NoMemory;
use std::alloc::{AllocError, Global};
use std::marker::Model;

/// A list of values in order. Contracts see it as the list of what they see of its values, so a list of lists of numbers
/// is there a list of lists of numbers.
#[derive(Drop)]
pub struct Seq<T> {
    items: Vec<T>,
}

impl<T> Model for Seq<T> {
    ghost use Rattle.std.specs.Prelude.{List};

    ghost Value = { List T };

    ghost view = { λ s. s.items.items };
}

impl<T> Seq<T> {
    /// The empty list. It takes no memory yet.
    pub fn new(alloc: Global) -> Self
        ensures { result ≡ [] }
    {
        Seq {
            items: Vec::new(alloc),
        }
    }

    /// The list of these values, in their order.
    pub fn of(items: Vec<T>) -> Self
        ensures { result ≡ items.items }
    {
        Seq { items }
    }

    /// The values, in their order.
    pub fn into_items(self) -> Vec<T>
        ensures { result.items ≡ self }
    {
        self.items
    }

    /// How many values there are.
    pub fn len(&self) -> usize
        ensures { result ≡ length self.now }
    {
        self.items.len()
    }

    /// The values as a slice.
    pub fn as_slice(&self) -> &[T]
        ensures { result.now ≡ self.now }
    {
        self.items.as_slice()
    }

    /// The value at a place, the first at 0.
    pub fn get(&self, at: usize) -> &T
        requires { at < length self.now }
        ensures { result.now ≡ slice_index_or self.now at result.now }
    {
        &self.items[at]
    }

    /// Takes the last value out, `None` exactly where there is none.
    pub fn pop(&mut self) -> Option<T>
        ensures some { IfSome result (λ last. self.old ≡ self.new ++ last ∷ []) }
        ensures none { IfNone result (self.old ≡ []) }
        ensures empty { IfNone result (self.new ≡ []) }
    {
        self.items.pop()
    }
}

impl<T: Copy> Seq<T> {
    /// The list of the values of a slice.
    pub fn of_slice(alloc: Global, items: &[T]) -> Result<Seq<T>, NoMemory>
        ensures { IfOk result (λ list. list ≡ items.now) }
    {
        let items = Vec::from_slice(alloc, items)?;
        Ok(Seq { items })
    }

    /// The same list once more.
    pub fn copy(&self, alloc: Global) -> Result<Seq<T>, NoMemory>
        ensures { IfOk result (λ list. list ≡ self.now) }
    {
        Seq::of_slice(alloc, self.as_slice())
    }
}

impl<T: Drop> Seq<T> {
    /// Puts a value at the end. The error is the want of memory, and the list stays as it was.
    pub fn push(&mut self, value: T) -> Result<(), AllocError>
        ensures ok { OnOk result (self.new ≡ self.old ++ value ∷ []) }
        ensures err { OnErr result (self.new ≡ self.old) }
    {
        self.items.push(value)?;
        Ok(())
    }

    /// Puts a value in the place of another, which is let go.
    pub fn set(&mut self, at: usize, value: T)
        requires { at < length self.old }
        ensures { self.new ≡ slice_set self.old at value }
    {
        self.items[at] = value;
    }
}

impl<T> Seq<T> {
    /// Puts a value in the place of another, which takes its place outside.
    pub fn swap_in(&mut self, at: usize, value: &mut T)
        requires { at < length self.old }
        ensures inside { self.new ≡ slice_set self.old at value.old }
        ensures outside { value.new ≡ slice_index_or self.old at value.new }
    {
        std::mem::swap(&mut self.items[at], value);
    }
}

impl<T> Seq<T> {
    ghost use Rattle.std.specs.Borrow.{Lends, sem};
    ghost use Rattle.emp_list.specs.contracts.seq.Seq.{the_row};

    /// The value at a place, to be written: what is written there is the list's value at that place, and nothing else of
    /// the list changes.
    pub fn get_mut(&mut self, at: usize) -> &mut T
        requires { at < length self.old }
        ensures* writes_back { sem 𝓛 (Lends (the_row T.row) T.row self.entry result (λ w. slice_set self.entry.now at w)) }
        ensures value { result.now ≡ slice_index_or self.old at result.now }
    {
        &mut self.items[at]
    }
}
