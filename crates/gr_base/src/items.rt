ghost use Rattle.std.specs.Prelude.{◌≡◌, ◌≤◌, ◌<◌, ◌==◌, [], ◌∷◌, ◌++◌};
ghost use Rattle.std.specs.Prelude.{length, insert, replicate, slice_set, OnOk, OnErr, IfOk};

use crate::OutOfMemory;
use std::alloc::Global;
use std::marker::Model;

/// A list of plain values, which keeps its allocator.
///
/// Contracts see the list itself, so a clause writes `length items` and `items ++ x ∷ []`.
#[derive(Debug, Drop)]
pub struct Items<T: Copy> {
    values: Vec<T>,
}

impl<T: Copy> Model for Items<T> {
    ghost use Rattle.std.specs.Prelude.{List};
    ghost use Rattle.std.specs.Coded.{coded_list};

    ghost Value = { List T };

    ghost coded = { coded_list T.code };

    ghost view = { λ it. it.values.items };
}

impl<T: Copy> Items<T> {
    /// The empty list. It takes no memory.
    pub fn new(alloc: Global) -> Items<T>
        ensures { result ≡ [] }
    {
        Items {
            values: Vec::new(alloc),
        }
    }

    /// The values of a `Vec`, which is taken over as it is. It takes no memory.
    pub fn from_vec(values: Vec<T>) -> Items<T>
        ensures { result ≡ values.items }
    {
        Items { values }
    }

    /// A copy of a slice, in time linear in its length.
    pub fn from_slice(alloc: Global, values: &[T]) -> Result<Items<T>, OutOfMemory>
        ensures { IfOk result (λ items. items ≡ values.now) }
    {
        let values = Vec::from_slice(alloc, values)?;
        Ok(Items { values })
    }

    /// The same value `count` times.
    pub fn filled(alloc: Global, item: T, count: usize) -> Result<Items<T>, OutOfMemory>
        ensures { IfOk result (λ items. items ≡ replicate count item) }
    {
        let mut items = Items::new(alloc);
        for i in 0..count {
            items.push(item)?;
        }
        Ok(items)
    }

    /// Adds a value at the end.
    pub fn push(&mut self, item: T) -> Result<(), OutOfMemory>
        ensures ok { OnOk result (self.new ≡ self.old ++ item ∷ []) }
        ensures err { OnErr result (self.new ≡ self.old) }
    {
        self.values.push(item)?;
        Ok(())
    }

    /// Adds values at the end.
    pub fn extend_from_slice(&mut self, items: &[T]) -> Result<(), OutOfMemory>
        ensures ok { OnOk result (self.new ≡ self.old ++ items.now) }
        ensures err { OnErr result (self.new ≡ self.old) }
    {
        self.values.extend_from_slice(items)?;
        Ok(())
    }

    /// Puts a value at a place, before those from there on, in time linear in their number.
    pub fn insert(&mut self, at: usize, item: T) -> Result<(), OutOfMemory>
        requires { at ≤ length self.old }
        ensures ok { OnOk result (self.new ≡ insert self.old at item) }
        ensures err { OnErr result (self.new ≡ self.old) }
    {
        self.values.insert(at, item)?;
        Ok(())
    }

    /// Replaces the value at a place.
    pub fn set(&mut self, at: usize, item: T)
        requires { at < length self.old }
        ensures { self.new ≡ slice_set self.old at item }
    {
        self.values[at] = item;
    }

    /// The values, borrowed.
    pub fn as_slice(&self) -> &[T]
        ensures { result.now ≡ self.now }
    {
        self.values.as_slice()
    }

    /// How many values there are.
    pub fn len(&self) -> usize
        ensures { result ≡ length self.now }
    {
        self.values.len()
    }

    /// Whether there is none.
    pub fn is_empty(&self) -> bool
        ensures { result ≡ (length self.now == 0) }
    {
        self.values.is_empty()
    }

    /// An equal list, in time linear in its length.
    pub fn copy(&self, alloc: Global) -> Result<Items<T>, OutOfMemory>
        ensures { IfOk result (λ items. items ≡ self.now) }
    {
        Items::from_slice(alloc, self.values.as_slice())
    }
}
