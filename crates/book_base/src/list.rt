//! Lists of bytes, of words and of numbers, which contracts see as plain lists.
ghost use Rattle.std.specs.Prelude.{◌≡◌, ℕ, List, map};

use std::alloc::{AllocError, Global};
use std::marker::Model;

/// A list of bytes.
#[derive(Debug, Drop)]
pub struct Bytes {
    items: Vec<u8>,
}

impl Model for Bytes {
    ghost Value = { List ℕ };

    ghost view = { λ b. b.items.items };
}

impl Bytes {
    /// The list of these items. It takes no memory.
    pub fn from_vec(items: Vec<u8>) -> Self
        ensures { result ≡ items.items }
    {
        Bytes { items }
    }

    /// The items.
    pub fn as_slice(&self) -> &[u8]
        ensures { result.now ≡ self.now }
    {
        self.items.as_slice()
    }

    /// The items, given back. It takes no memory.
    pub fn into_vec(self) -> Vec<u8>
        ensures { result.items ≡ self }
    {
        let Bytes { items } = self;
        items
    }
}

/// A list of lists of bytes.
#[derive(Debug, Drop)]
pub struct Words {
    items: Vec<Bytes>,
}

impl Model for Words {
    ghost Value = { List (List ℕ) };

    ghost view = { λ w. w.items.items };
}

impl Words {
    /// The list of these items. It takes no memory.
    pub fn from_vec(items: Vec<Bytes>) -> Self
        ensures { result ≡ items.items }
    {
        Words { items }
    }

    /// The items.
    pub fn as_slice(&self) -> &[Bytes]
        ensures { result.now ≡ self.now }
    {
        self.items.as_slice()
    }

    /// The items, given back. It takes no memory.
    pub fn into_vec(self) -> Vec<Bytes>
        ensures { result.items ≡ self }
    {
        let Words { items } = self;
        items
    }
}

/// A list of numbers.
#[derive(Debug, Drop)]
pub struct Numbers {
    items: Vec<u64>,
}

impl Model for Numbers {
    ghost Value = { List ℕ };

    ghost view = { λ b. b.items.items };
}

impl Numbers {
    /// The list of these items. It takes no memory.
    pub fn from_vec(items: Vec<u64>) -> Self
        ensures { result ≡ items.items }
    {
        Numbers { items }
    }

    /// The items.
    pub fn as_slice(&self) -> &[u64]
        ensures { result.now ≡ self.now }
    {
        self.items.as_slice()
    }

    /// The items, given back. It takes no memory.
    pub fn into_vec(self) -> Vec<u64>
        ensures { result.items ≡ self }
    {
        let Numbers { items } = self;
        items
    }
}
