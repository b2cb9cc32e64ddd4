ghost use Rattle.std.specs.Prelude.{◌≡◌, ℕ, ◌+◌, ◌-◌, ◌<◌, ◌≤◌, List, [], ◌∷◌, ◌++◌, length, take};
ghost use Rattle.packet.specs.Items.{items_of, Popped, Pushed};

use super::{Bounded, Full};

impl<T: Copy, const N: usize> Bounded<T, N> {
    /// The empty list; `filler` stands in the array where no item does.
    pub fn new(filler: T) -> Self
        ensures { items_of result ≡ [] }
    {
        Bounded {
            items: [filler; N],
            len: 0,
        }
    }

    /// How many items there are.
    pub fn len(&self) -> usize
        ensures { result ≡ length (items_of self.now) }
    {
        self.as_slice().len()
    }

    /// The items, the oldest first.
    pub fn as_slice(&self) -> &[T]
        ensures { result.now ≡ items_of self.now }
    {
        &self.items[..self.len]
    }

    /// Puts an item at the end; refused where `N` are there.
    pub fn push(&mut self, item: T) -> Result<(), Full>
        ensures { Pushed (items_of self.old) item N result (items_of self.new) }
    {
        if self.len == N {
            return Err(Full);
        }
        self.items[self.len] = item;
        self.len += 1;
        Ok(())
    }

    /// Takes the newest item off, or answers none where there is none.
    pub fn pop(&mut self) -> Option<T>
        ensures { Popped (items_of self.old) result (items_of self.new) }
    {
        if self.len == 0 {
            return None;
        }
        self.len -= 1;
        Some(self.items[self.len])
    }

    /// Drops what stands at `len` and after it.
    pub fn truncate(&mut self, len: usize)
        ensures { items_of self.new ≡ take len (items_of self.old) }
    {
        self.len = self.len.min(len);
    }
}
