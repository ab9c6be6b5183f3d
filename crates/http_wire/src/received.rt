//! The bytes of a reply that were read and not yet dropped, and the loop that reads on to the end of a block.
ghost use Rattle.std.specs.Prelude.{◌≡◌, ◌+◌, ◌<◌, ◌≤◌, ℕ, List, ◌++◌, [], length, drop, true, false};
ghost use Rattle.std.specs.Prelude.{IfOk, OnErr, Ok};
ghost use Rattle.std.specs.Io.KnownBytes.{IsAtEnd};
ghost use Rattle.http_messages.specs.Block.{from_block, HasNoEndUpTo, IsBlock, IsUnended};

use crate::device::Source;
use crate::read::{CHUNK, MAX_READS, read_into};
use http_connection::{Buffer, MAX_HELD};
use http_messages::{Block, ConnFault, find_block_from, searched_len};
use std::alloc::{AllocError, Global};

/// The bytes, and how many reads gave some.
#[derive(Drop)]
pub(crate) struct Received {
    bytes: Buffer,
    reads: u32,
    ghost counted: { reads ≤ 4194304 },
}

impl Received {
    ghost use Rattle.http_wire.specs.Received.{held_bytes, read_count, received, ReadsFrom, ReceivesNothing};

    /// Nothing yet.
    pub(crate) fn new(alloc: Global) -> Result<Received, AllocError>
        ensures { IfOk result (λ r. (held_bytes r ≡ []) × (read_count r ≡ 0)) }
    {
        Ok(Received {
            bytes: Buffer::with_room(alloc, CHUNK)?,
            reads: 0,
        })
    }

    /// The bytes that are held, oldest first.
    pub(crate) fn bytes(&self) -> &[u8]
        ensures value { result.now ≡ held_bytes self.now }
        ensures bound { length result.now ≤ MAX_HELD }
    {
        self.bytes.as_slice()
    }

    /// Drops the first bytes.
    pub(crate) fn drop_front(&mut self, len: usize)
        requires { len ≤ length (held_bytes self.old) }
        ensures bytes { held_bytes self.new ≡ drop len (held_bytes self.old) }
        ensures reads { read_count self.new ≡ read_count self.old }
    {
        self.bytes.drop_front(len);
    }

    /// Reads until a block stands at the front or what is too long for one, or the input ends. Each
    /// search goes on where the last one stopped.
    pub(crate) fn read_block<R: Source>(&mut self, reader: &mut R) -> Result<Block, ConnFault>
        ensures reads { ReadsFrom R.Source reader.old reader.new (received self.old) (received self.new) result }
        ensures block { IfOk result (IsBlock (held_bytes self.new)) }
        ensures end { result ≡ Ok Block.More → IsAtEnd (R.left reader.new) }
        ensures unended { OnErr result (IsUnended (held_bytes self.new)) }
    {
        let mut searched = 0;
        loop {
            let block = find_block_from(self.bytes(), searched);
            if block != Block::More {
                return Ok(block);
            }
            searched = searched_len(self.bytes());
            if !self.read_more(reader)? {
                return Ok(Block::More);
            }
        }
    }

    /// Makes one read; `false` if it gave nothing, since the input has ended. Only a read that gave bytes is counted.
    pub(crate) fn read_more<R: Source>(&mut self, reader: &mut R) -> Result<bool, ConnFault>
        requires { length (held_bytes self.old) < MAX_HELD }
        ensures reads { ReadsFrom R.Source reader.old reader.new (received self.old) (received self.new) result }
        ensures counted { result ≡ Ok true → read_count self.new ≡ read_count self.old + 1 }
        ensures end { result ≡ Ok false → (held_bytes self.new ≡ held_bytes self.old) × IsAtEnd (R.left reader.new) }
        ensures same { OnErr result (held_bytes self.new ≡ held_bytes self.old) }
    {
        if self.reads == MAX_READS {
            return Err(ConnFault::ReadLimit);
        }
        let mut room = [0; CHUNK];
        let most = CHUNK.min(MAX_HELD - self.bytes.len());
        self.bytes.reserve(most)?;
        let count = read_into(reader, &mut room[..most])?;
        if count == 0 {
            return Ok(false);
        }
        self.bytes.append(&room[..count]);
        self.reads += 1;
        Ok(true)
    }
}
