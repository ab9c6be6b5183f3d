//! The bytes that came and were not taken yet, and the room for more.
ghost use Rattle.std.specs.Prelude.{◌≡◌, ◌+◌, ◌≤◌, [], ◌++◌, length, take, drop, slice_range, vec_len, vec_capacity};
ghost use Rattle.std.specs.Prelude.{IfOk, IsOk, OnOk};

use std::alloc::{AllocError, Global};

/// The most bytes that are held, and that there is memory for: the length of the longest request, a skipped CRLF
/// (RFC 9112, section 2.2), 16,384 bytes of a block and 1,048,576 of a body.
pub const MAX_HELD: usize = 1_064_962;

/// The bytes from `start` to `end`, and room after them. The room keeps its length, so that it is zeroed only as it
/// grows; bytes are moved only as more come behind those that were dropped.
#[derive(Drop)]
pub struct Buffer {
    room: Vec<u8>,
    start: usize,
    end: usize,
    ghost ordered: { start ≤ end },
    ghost within: { end ≤ vec_len room },
    ghost bounded: { vec_capacity room ≤ 1064962 },
}

impl Buffer {
    ghost use Rattle.http_connection.specs.Buffer.{buffered, memory, spare};

    /// A buffer of nothing, with room for so many bytes.
    pub fn with_room(alloc: Global, count: usize) -> Result<Buffer, AllocError>
        requires { count ≤ MAX_HELD }
        ensures bytes { IfOk result (λ b. buffered b ≡ []) }
        ensures memory { IfOk result (λ b. memory b ≡ count) }
    {
        Ok(Buffer {
            room: zeros(alloc, count)?,
            start: 0,
            end: 0,
        })
    }

    /// A buffer of nothing, without memory.
    pub fn new(alloc: Global) -> Buffer
        ensures { buffered result ≡ [] }
    {
        Buffer {
            room: Vec::new(alloc),
            start: 0,
            end: 0,
        }
    }

    /// The allocator of the room.
    pub fn alloc(&self) -> Global {
        *self.room.allocator()
    }

    /// The bytes, oldest first.
    pub fn as_slice(&self) -> &[u8]
        ensures value { result.now ≡ buffered self.now }
        ensures bound { length result.now ≤ MAX_HELD }
    {
        &self.room[self.start..self.end]
    }

    /// How many bytes there are.
    pub fn len(&self) -> usize
        ensures value { result ≡ length (buffered self.now) }
        ensures bound { result ≤ MAX_HELD }
    {
        self.end - self.start
    }

    /// Drops the first bytes.
    pub fn drop_front(&mut self, count: usize)
        requires { count ≤ length (buffered self.old) }
        ensures { buffered self.new ≡ drop count (buffered self.old) }
    {
        self.start += count;
    }

    /// Makes room for so many more bytes, if there is memory for it.
    pub fn reserve(&mut self, count: usize) -> Result<(), AllocError>
        requires { length (buffered self.old) + count ≤ MAX_HELD }
        ensures bytes { buffered self.new ≡ buffered self.old }
        ensures room { OnOk result (count ≤ spare self.new) }
        ensures succeeds { count ≤ spare self.old → IsOk result }
    {
        if count <= self.room.len() - self.end {
            return Ok(());
        }
        self.move_to_front();
        self.make_room(self.end + count)
    }

    /// Appends bytes for which there is room.
    pub fn append(&mut self, bytes: &[u8])
        requires { length bytes.now ≤ spare self.old }
        ensures bytes { buffered self.new ≡ buffered self.old ++ bytes.now }
        ensures bound { length (buffered self.new) ≤ MAX_HELD }
    {
        copy_into(bytes, &mut self.room, self.end);
        self.end += bytes.len();
    }

    /// Lets the memory go that no byte is in, as far as the allocator does.
    pub fn shrink(&mut self)
        ensures bytes { buffered self.new ≡ buffered self.old }
        ensures memory { memory self.new ≤ memory self.old }
        ensures frees { buffered self.old ≡ [] → memory self.new ≡ 0 }
    {
        self.move_to_front();
        self.room.truncate(self.end);
        self.room.shrink_to_fit();
    }

    /// Moves the bytes to the front of the room.
    fn move_to_front(&mut self)
        ensures bytes { buffered self.new ≡ buffered self.old }
        ensures memory { memory self.new ≡ memory self.old }
        ensures front { self.new.start ≡ 0 }
    {
        if self.start > 0 {
            let (start, end) = (self.start, self.end);
            self.room.copy_within(start..end, 0);
            self.start = 0;
            self.end = end - start;
        }
    }

    /// Makes the room at least this long: twice as long as it was, within the most, if that suffices.
    fn make_room(&mut self, len: usize) -> Result<(), AllocError>
        requires { len ≤ MAX_HELD }
        ensures bytes { buffered self.new ≡ buffered self.old }
        ensures start { self.new.start ≡ self.old.start }
        ensures end { self.new.end ≡ self.old.end }
        ensures room { OnOk result (len ≤ vec_len self.new.room) }
    {
        if self.room.len() < len {
            let doubled = (2 * self.room.len()).clamp(len, MAX_HELD);
            let mut longer = zeros(self.alloc(), doubled)?;
            copy_into(&self.room[..self.end], &mut longer, 0);
            self.room = longer;
        }
        Ok(())
    }
}

/// So many zeros, in memory for no more. The room is the function's own as it is filled, so that a compiler sees one
/// block to be zeroed, and no single bytes.
fn zeros(alloc: Global, len: usize) -> Result<Vec<u8>, AllocError>
    ensures len { IfOk result (λ room. vec_len room ≡ len) }
    ensures memory { IfOk result (λ room. vec_capacity room ≡ len) }
{
    let mut room = Vec::with_capacity(alloc, len)?;
    while room.len() < len {
        room.push_reserved(0);
    }
    Ok(room)
}

/// Puts these bytes into the room, from there on.
fn copy_into(bytes: &[u8], room: &mut Vec<u8>, start: usize)
    requires { start + length bytes.now ≤ vec_len room.old }
    ensures front { take start room.new.items ≡ take start room.old.items }
    ensures put { slice_range room.new.items start (start + length bytes.now) ≡ bytes.now }
    ensures len { vec_len room.new ≡ vec_len room.old }
    ensures memory { vec_capacity room.new ≡ vec_capacity room.old }
{
    room.slice_mut(start..start + bytes.len())
        .copy_from_slice(bytes);
}
