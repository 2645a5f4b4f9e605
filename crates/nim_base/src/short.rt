ghost use Rattle.std.specs.Prelude.{◌≡◌, [], ◌∷◌, ◌++◌, ◌≤◌, ◌<◌, length, IsOk, IfOk, OnOk, OnErr};

use crate::{Copied, NoMemory};
use smallvec::SmallVec;
use std::alloc::Global;
use std::marker::Model;

/// A list that keeps up to `N` items in place, and more on the heap. Contracts see the list of its items.
#[derive(Debug, Drop)]
pub struct Short<T, const N: usize> {
    items: SmallVec<T, N>,
}

impl<T, const N: usize> Model for Short<T, N> {
    ghost use Rattle.std.specs.Prelude.{List};
    ghost use Rattle.std.specs.Coded.{coded_list};

    ghost Value = { List T };

    ghost coded = { coded_list T.code };

    ghost view = { λ s. s.items.items };
}

impl<T, const N: usize> Short<T, N> {
    /// All items, in order.
    pub fn as_slice(&self) -> &[T]
        ensures { result.now ≡ self.now }
    {
        self.items.as_slice()
    }

    /// How many items there are.
    pub fn len(&self) -> usize
        ensures { result ≡ length self.now }
    {
        self.items.len()
    }

    /// Where its memory comes from.
    pub fn alloc(&self) -> Global {
        *self.items.allocator()
    }
}

impl<T: Copy + Default, const N: usize> Short<T, N> {
    /// No items; takes no memory.
    pub fn new(alloc: Global) -> Short<T, N>
        ensures { result ≡ [] }
    {
        Short {
            items: SmallVec::new(alloc),
        }
    }

    /// The same items; up to `N` of them take no memory.
    pub fn from_slice(alloc: Global, items: &[T]) -> Result<Short<T, N>, NoMemory>
        ensures items { IfOk result (λ short. short ≡ items.now) }
        ensures in_place { length items.now ≤ N → IsOk result }
    {
        let items = SmallVec::from_slice(alloc, items)?;
        Ok(Short { items })
    }

    /// One item more; up to `N` of them take no memory.
    pub fn push(&mut self, item: T) -> Result<(), NoMemory>
        ensures ok { OnOk result (self.new ≡ self.old ++ item ∷ []) }
        ensures err { OnErr result (self.new ≡ self.old) }
        ensures in_place { length self.old < N → IsOk result }
    {
        // Its clause says that there is room for `N`.
        let _room = self.items.capacity();
        self.items.push(item)?;
        Ok(())
    }
}

impl<T: Copy + Default, const N: usize> Copied for Short<T, N> {
    fn copy(&self) -> Result<Short<T, N>, NoMemory>
        ensures same { IfOk result (λ other. other ≡ self.now) }
        ensures in_place { length self.now ≤ N → IsOk result }
    {
        Short::from_slice(self.alloc(), self.as_slice())
    }
}
