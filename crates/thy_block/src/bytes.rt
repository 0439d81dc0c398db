//! Bytes that contracts see as a list.
ghost use Rattle.std.specs.Prelude.{◌≡◌, ◌==◌, ◌+◌, ◌-◌, ◌<◌, ◌≤◌, ◌++◌, [], ◌∷◌, length, take, drop, slice_index, slice_set, vec_capacity, IfOk, OnOk, OnErr};
ghost use Rattle.thy_block.specs.Bytes.{bytes_of, room_of, written};

use std::alloc::{AllocError, Global};

/// A list of bytes in memory. `bytes_of` is the list, and `room_of` how many bytes it can hold
/// before it has to allocate.
#[derive(Debug, Drop)]
pub struct Bytes {
    items: Vec<u8>,
}

impl Bytes {
    /// An empty list without room. Allocates nothing.
    pub fn new(alloc: Global) -> Bytes
        ensures { bytes_of result ≡ [] }
    {
        Bytes {
            items: Vec::new(alloc),
        }
    }

    /// An empty list with room for `room` bytes. Fails if memory runs out.
    pub fn with_room(alloc: Global, room: usize) -> Result<Bytes, AllocError>
        ensures empty { IfOk result (λ b. bytes_of b ≡ []) }
        ensures room { IfOk result (λ b. room_of b ≡ room) }
    {
        let items = Vec::with_capacity(alloc, room)?;
        Ok(Bytes { items })
    }

    /// The list of a vector's bytes, with the vector's room. Allocates nothing.
    pub fn from_vec(items: Vec<u8>) -> Bytes
        ensures bytes { bytes_of result ≡ items.items }
        ensures room { room_of result ≡ vec_capacity items }
    {
        Bytes { items }
    }

    /// All bytes of the list, in order.
    pub fn as_slice(&self) -> &[u8]
        ensures { result.now ≡ bytes_of self.now }
    {
        self.items.as_slice()
    }

    /// How many bytes there are.
    pub fn len(&self) -> usize
        ensures { result ≡ length (bytes_of self.now) }
    {
        self.items.len()
    }

    /// Whether there are no bytes.
    pub fn is_empty(&self) -> bool
        ensures { result ≡ (length (bytes_of self.now) == 0) }
    {
        self.items.is_empty()
    }

    /// The byte at index `at`, which is below the length.
    pub fn get(&self, at: usize) -> u8
        requires { at < length (bytes_of self.now) }
        ensures { result ≡ slice_index (bytes_of self.now) at }
    {
        self.items[at]
    }

    /// Replaces the byte at index `at`, which is below the length. Allocates nothing.
    pub fn set(&mut self, at: usize, byte: u8)
        requires { at < length (bytes_of self.old) }
        ensures bytes { bytes_of self.new ≡ slice_set (bytes_of self.old) at byte }
        ensures room { room_of self.new ≡ room_of self.old }
    {
        self.items[at] = byte;
    }

    /// Writes a piece over the bytes from index `at` on, none past the last. Allocates nothing.
    pub fn put(&mut self, at: usize, piece: &[u8])
        requires { at + length piece.now ≤ length (bytes_of self.old) }
        ensures bytes { bytes_of self.new ≡ written (bytes_of self.old) at piece.now }
        ensures room { room_of self.new ≡ room_of self.old }
    {
        put_in(&mut self.items, at, piece);
    }

    /// Adds a piece at the end. Allocates only if there is not enough room, and frees none. Fails if memory runs out; then the list is as
    /// before.
    pub fn extend(&mut self, piece: &[u8]) -> Result<(), AllocError>
        ensures ok { OnOk result (bytes_of self.new ≡ bytes_of self.old ++ piece.now) }
        ensures err { OnErr result (bytes_of self.new ≡ bytes_of self.old) }
        ensures room { room_of self.old ≤ room_of self.new }
        ensures full { OnErr result (room_of self.old < length (bytes_of self.old) + length piece.now) }
    {
        self.items.extend_from_slice(piece)
    }

    /// Adds a byte at the end, for which there is room. Allocates nothing.
    #[inline(always)]
    pub fn push(&mut self, byte: u8)
        requires { length (bytes_of self.old) < room_of self.old }
        ensures bytes { bytes_of self.new ≡ bytes_of self.old ++ byte ∷ [] }
        ensures room { room_of self.new ≡ room_of self.old }
    {
        self.items.push_reserved(byte);
    }

    /// Removes all bytes, and keeps the room. Frees nothing.
    pub fn clear(&mut self)
        ensures bytes { bytes_of self.new ≡ [] }
        ensures room { room_of self.new ≡ room_of self.old }
    {
        self.items.clear();
    }

    /// A second list with the same bytes. Fails if memory runs out.
    pub fn duplicate(&self, alloc: Global) -> Result<Bytes, AllocError>
        ensures { IfOk result (λ b. bytes_of b ≡ bytes_of self.now) }
    {
        let items = Vec::from_slice(alloc, self.items.as_slice())?;
        Ok(Bytes { items })
    }
}

/// Writes a piece over the bytes of a slice from index `at` on, none past the last.
pub(crate) fn put_in(items: &mut [u8], at: usize, piece: &[u8])
    requires { at + length piece.now ≤ length items.old }
    ensures { items.new ≡ written items.old at piece.now }
{
    items[at..at + piece.len()].copy_from_slice(piece);
}
