//! Octet lists of fixed room.
ghost use Rattle.std.specs.Prelude.{◌≡◌, ◌+◌, ◌<◌, ◌≤◌, ◌↔◌, [], ◌∷◌, ◌++◌, length, take, IsTrue, IsSome, IfSome};

use arrayvec::ArrayVec;
use std::marker::Model;

/// A list of at most `N` octets, which lie in the value itself and so take no memory.
#[derive(Drop)]
pub struct Bytes<const N: usize> {
    octets: ArrayVec<u8, N>,
}

impl<const N: usize> Model for Bytes<N> {
    ghost use Rattle.std.specs.Prelude.{◌≤◌, List, ℕ, length};

    ghost Value = { List ℕ };

    ghost view = { λ b. b.octets.items };

    ghost invariant = { λ b. length b.octets.items ≤ N };
}

impl<const N: usize> Bytes<N> {
    /// No octets.
    pub fn new() -> Self
        ensures { result ≡ [] }
    {
        Bytes {
            octets: ArrayVec::new(),
        }
    }

    /// These octets, and None where they are more than `N`.
    pub fn from_slice(from: &[u8]) -> Option<Self>
        ensures room { IsSome result ↔ (length from.now ≤ N) }
        ensures octets { IfSome result (λ held. held ≡ from.now) }
    {
        let mut held = Bytes::new();
        if held.extend(from) { Some(held) } else { None }
    }

    /// Appends an octet. False where `N` are held, and then nothing changes.
    pub fn push(&mut self, octet: u8) -> bool
        ensures room { IsTrue result ↔ (length self.old < N) }
        ensures pushed { IsTrue result → self.new ≡ self.old ++ octet ∷ [] }
        ensures full { (N ≤ length self.old) → self.new ≡ self.old }
    {
        self.octets.try_push(octet).is_ok()
    }

    /// Appends all of `from`. False where they don't fit, and then nothing changes.
    pub fn extend(&mut self, from: &[u8]) -> bool
        ensures room { IsTrue result ↔ (length self.old + length from.now ≤ N) }
        ensures extended { IsTrue result → self.new ≡ self.old ++ from.now }
        ensures full { (N < length self.old + length from.now) → self.new ≡ self.old }
    {
        self.octets.try_extend_from_slice(from).is_ok()
    }

    /// The octets that are held.
    pub fn as_slice(&self) -> &[u8]
        ensures { result.now ≡ self.now }
    {
        self.octets.as_slice()
    }

    /// Clears the list.
    pub fn clear(&mut self)
        ensures { self.new ≡ [] }
    {
        self.octets.clear();
    }

    /// Keeps the first `count` octets alone, or all where there are no more.
    pub fn truncate(&mut self, count: usize)
        ensures { self.new ≡ take count self.old }
    {
        self.octets.truncate(count);
    }

    /// Another list with the same octets.
    pub fn copy(&self) -> Self
        ensures { result ≡ self.now }
    {
        let mut copy = Bytes::new();
        copy.extend(self.octets.as_slice());
        copy
    }

    /// At most `N` octets are held: a fact for proofs, which costs nothing.
    pub fn fits(&self)
        ensures { length self.now ≤ N }
    {
        let _ = &self.octets;
    }
}
