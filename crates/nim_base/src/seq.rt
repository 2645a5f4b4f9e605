ghost use Rattle.std.specs.Prelude.{◌≡◌, [], ◌∷◌, ◌++◌, ◌<◌, length, slice_get, slice_set, IfOk, OnOk, OnErr};

use crate::{Copied, NoMemory};
use std::alloc::Global;
use std::marker::Model;

/// A `Vec` that contracts see as the list of its items.
#[derive(Debug, Drop)]
pub struct Seq<T> {
    items: Vec<T>,
}

impl<T> Model for Seq<T> {
    ghost use Rattle.std.specs.Prelude.{List};
    ghost use Rattle.std.specs.Coded.{coded_list};

    ghost Value = { List T };

    ghost coded = { coded_list T.code };

    ghost view = { λ s. s.items.items };
}

impl<T> Seq<T> {
    /// No items; takes no memory.
    pub fn new(alloc: Global) -> Seq<T>
        ensures { result ≡ [] }
    {
        Seq {
            items: Vec::new(alloc),
        }
    }

    /// The same items, none of them copied; takes no memory.
    pub fn from_vec(items: Vec<T>) -> Seq<T>
        ensures { result ≡ items.items }
    {
        Seq { items }
    }

    /// Gives its items away, in order.
    pub fn into_vec(self) -> Vec<T>
        ensures { result.items ≡ self }
    {
        let Seq { items } = self;
        items
    }

    /// All items, in order.
    pub fn as_slice(&self) -> &[T]
        ensures { result.now ≡ self.now }
    {
        self.items.as_slice()
    }

    /// How many items there are.
    pub fn len(&self) -> usize
        ensures { result ≡ length self.now }
    {
        self.items.len()
    }

    /// Where its memory comes from.
    pub fn alloc(&self) -> Global {
        *self.items.allocator()
    }
}

impl<T: Drop> Seq<T> {
    /// One item more at the end. Where memory is refused all is as it was.
    pub fn push(&mut self, item: T) -> Result<(), NoMemory>
        ensures ok { OnOk result (self.new ≡ self.old ++ item ∷ []) }
        ensures err { OnErr result (self.new ≡ self.old) }
    {
        self.items.push(item)?;
        Ok(())
    }

    /// Puts an item at a place, in place of the one there; past the end nothing changes. Takes no memory.
    pub fn set(&mut self, place: usize, item: T)
        ensures { self.new ≡ slice_set self.old place item }
    {
        if place < self.items.len() {
            self.items[place] = item;
        }
    }
}

impl<T: Copied> Copied for Seq<T> {
    fn copy(&self) -> Result<Seq<T>, NoMemory> {
        copies(self.alloc(), self.as_slice())
    }
}

/// Equal items, in order; their room is made at once.
pub fn copies<T: Copied>(alloc: Global, items: &[T]) -> Result<Seq<T>, NoMemory>
    ensures { IfOk result (λ other. other ≡ items.now) }
{
    let mut other = Vec::with_capacity(alloc, items.len())?;
    for item in items {
        other.push(item.copy()?)?;
    }
    Ok(Seq::from_vec(other))
}
