ghost use Rattle.std.specs.Prelude.{◌≡◌, [], ◌∷◌, ◌++◌, length, slice_get, IfOk, OnOk, OnErr, IfErr};
ghost use Rattle.std.specs.Option.{option_copied};
ghost use Rattle.sg_plain.specs.Keys.{IsRising};

use sg_shape::{Back, Items};
use std::alloc::{AllocError, Global};
use std::marker::Model;

/// Keys of rows, each above the one before.
#[derive(Debug, Drop)]
pub struct KeyList {
    keys: Items<u32>,
}

impl Model for KeyList {
    ghost use Rattle.std.specs.Prelude.{List, ℕ};
    ghost use Rattle.sg_plain.specs.Keys.{IsRising};

    ghost Value = { List ℕ };

    ghost view = { λ list. list.keys };

    ghost invariant = { λ list. IsRising list.keys };
}

impl KeyList {
    /// The empty list. It takes no memory, and keeps the allocator for its own growth.
    pub fn new(alloc: Global) -> KeyList
        ensures { result ≡ [] }
    {
        KeyList {
            keys: Items::new(alloc),
        }
    }

    /// Puts a key last, which has to be above all others. Without memory for it the list stays as it was.
    pub fn push(&mut self, key: u32) -> Result<(), Back<u32>>
        requires { IsRising (self.old ++ key ∷ []) }
        ensures ok { OnOk result (self.new ≡ self.old ++ key ∷ []) }
        ensures err { OnErr result (self.new ≡ self.old) }
        ensures back { IfErr result (λ back. back.item ≡ key) }
    {
        self.keys.push(key)
    }

    /// How many keys there are.
    pub fn len(&self) -> usize
        ensures { result ≡ length self.now }
    {
        self.keys.len()
    }

    /// The key at a place, counted from 0: `None` exactly past the end.
    pub fn at(&self, place: usize) -> Option<&u32>
        ensures { option_copied result ≡ slice_get self.now place }
    {
        self.keys.at(place)
    }

    /// All keys, in order.
    pub fn as_slice(&self) -> &[u32]
        ensures all { result.now ≡ self.now }
        ensures rising { IsRising self.now }
    {
        self.keys.as_slice()
    }

    /// An equal list.
    pub fn copy(&self, alloc: Global) -> Result<KeyList, AllocError>
        ensures { IfOk result (λ list. list ≡ self.now) }
    {
        let mut copy = KeyList::new(alloc);
        for key in self.keys.as_slice() {
            copy.push(*key)?;
        }
        Ok(copy)
    }
}
