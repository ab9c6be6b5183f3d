//! Reading an input of bytes whole, up to a length.

ghost use Rattle.std.specs.Prelude.{◌≡◌, ◌++◌, ◌+◌, ◌-◌, ◌^◌, ◌<◌, ◌≤◌, drop, slice_range, vec_len, IfOk};
ghost use Rattle.std.specs.Prelude.{IfErr, OnOk, Ok};
ghost use Rattle.std.specs.Io.KnownBytes.{Consumes, IsAtEnd};
ghost use Rattle.http_wire.specs.Device.{HasFailed};
ghost use Rattle.http_messages.specs.Reads.{max_reads};
ghost use Rattle.command_line.specs.declared.bytes.ReadFault.TheVariants.{Read, ReadLimit, Memory};
ghost use Rattle.command_line.specs.Reading.{GivesBytes, IsReadFailure, IsNoRead, IsWhole, IsNotWhole};

use http_wire::{MAX_READS, Source};
use std::alloc::{AllocError, Global};
use std::io;
use thiserror::Error;

/// How many reads were made of an input.
#[derive(Clone, Copy)]
struct Reads {
    made: u32,
    ghost few: { made ≤ max_reads },
}

impl Reads {
    /// Counts one more read. Answers `ReadLimit` exactly if all reads are made.
    fn count(&mut self) -> Result<(), ReadFault>
        ensures counted { OnOk result (self.new.made ≡ self.old.made + 1) }
        ensures limit { IfErr result (λ fault. (fault ≡ ReadLimit) × (self.old.made ≡ MAX_READS)) }
    {
        if self.made == MAX_READS {
            return Err(ReadFault::ReadLimit);
        }
        self.made += 1;
        Ok(())
    }
}

/// The most bytes that are asked for at a time.
const CHUNK: usize = 16_384;

/// Why an input was not read up to its end or the length.
#[derive(Debug, Drop, Error)]
pub enum ReadFault {
    /// Its file was not opened.
    #[error("{0}")]
    Open(#[from] io::Error),
    /// The reader failed.
    #[error("it cannot be read")]
    Read,
    /// More than 4,194,304 reads were needed.
    #[error("it takes too many reads")]
    ReadLimit,
    /// It has more bytes than it may have. The text is for a report.
    #[error("the report has more than 1048576 bytes")]
    TooLarge,
    /// No memory was left.
    #[error("out of memory")]
    Memory,
}

impl From<AllocError> for ReadFault {
    ghost from_gives = { λ _ fault. fault ≡ Memory };

    fn from(_error: AllocError) -> ReadFault {
        ReadFault::Memory
    }
}

impl ReadFault {
    ghost use Rattle.command_line.specs.Status.{read_status};

    /// The status that a program ends with: 2 for a report that is too large, otherwise 3.
    pub(crate) fn status(&self) -> u8
        ensures { result ≡ read_status self.now }
    {
        match self {
            ReadFault::TooLarge => 2,
            ReadFault::Open(_) | ReadFault::Read | ReadFault::ReadLimit | ReadFault::Memory => 3,
        }
    }
}

/// All bytes of a reader, if there are at most `most`. If there are more, some of them are left.
pub fn read_whole<R: Source>(
    alloc: Global,
    reader: &mut R,
    most: usize,
) -> Result<Vec<u8>, ReadFault>
    requires { most < 2 ^ 64 - 1 }
    ensures whole { IfOk result (λ bytes. IsWhole (R.left reader.old) (R.left reader.new) most bytes.items) }
    ensures fine { OnOk result (R.read_failures reader.new ≡ R.read_failures reader.old) }
    ensures fault { IfErr result (IsNotWhole R.left R.read_failures most reader.old reader.new) }
{
    let bytes = read_up_to(alloc, reader, most + 1)?;
    if bytes.len() > most {
        return Err(ReadFault::TooLarge);
    }
    Ok(bytes)
}

/// The bytes of a reader up to its end, or the first `most` of them. At most 4,194,304 reads are made, each of one byte
/// at least. It answers `ReadLimit` only after as many reads, and with fewer than `most` bytes.
pub fn read_up_to<R: Source>(
    alloc: Global,
    reader: &mut R,
    most: usize,
) -> Result<Vec<u8>, ReadFault>
    ensures given { IfOk result (λ bytes. Consumes (R.left reader.old) (R.left reader.new) bytes.items) }
    ensures bound { IfOk result (λ bytes. vec_len bytes ≤ most) }
    ensures whole { IfOk result (λ bytes. vec_len bytes < most → IsAtEnd (R.left reader.new)) }
    ensures fine { OnOk result (R.read_failures reader.new ≡ R.read_failures reader.old) }
    ensures fault { IfErr result (IsReadFailure R.left R.read_failures most reader.old reader.new) }
{
    let mut bytes = Vec::new(alloc);
    let mut room = room(alloc)?;
    let mut reads = Reads { made: 0 };
    while bytes.len() < most {
        if read_more(reader, &mut reads, &mut room, &mut bytes, most)? == 0 {
            return Ok(bytes);
        }
    }
    Ok(bytes)
}

/// Room for one read.
fn room(alloc: Global) -> Result<Vec<u8>, AllocError>
    ensures { IfOk result (λ room. vec_len room ≡ CHUNK) }
{
    let mut room = Vec::new(alloc);
    room.resize(CHUNK, 0)?;
    Ok(room)
}

/// Makes one read, counts it, and appends what it gave, up to `most` bytes in all. The answer is the count of these
/// bytes, which is 0 only at the end of the input. It answers `ReadLimit` exactly if all reads are made already, and
/// then reads nothing.
fn read_more<R: Source>(
    reader: &mut R,
    reads: &mut Reads,
    room: &mut Vec<u8>,
    bytes: &mut Vec<u8>,
    most: usize,
) -> Result<usize, ReadFault>
    requires room { vec_len room.old ≡ CHUNK }
    requires less { vec_len bytes.old < most }
    ensures room { vec_len room.new ≡ vec_len room.old }
    ensures bound { vec_len bytes.new ≤ most }
    ensures count { IfOk result (λ count. vec_len bytes.new ≡ vec_len bytes.old + count) }
    ensures kept { bytes.new.items ≡ bytes.old.items ++ drop (vec_len bytes.old) bytes.new.items }
    ensures given { OnOk result
        (Consumes (R.left reader.old) (R.left reader.new) (drop (vec_len bytes.old) bytes.new.items)) }
    ensures end { result ≡ Ok 0 → IsAtEnd (R.left reader.new) }
    ensures some { IfOk result (λ count. 1 ≤ count → GivesBytes R.left R.read_failures reader.old reader.new) }
    ensures fine { OnOk result (R.read_failures reader.new ≡ R.read_failures reader.old) }
    ensures made { OnOk result (reads.new.made ≡ reads.old.made + 1) }
    ensures fault { IfErr result (IsNoRead R.read_failures reads.old.made reader.old reader.new) }
{
    reads.count()?;
    let wanted = room.len().min(most - bytes.len());
    let count = read_into(reader, room, wanted)?;
    bytes.extend_from_slice(&room[0..count])?;
    Ok(count)
}

/// Makes one read into the first `wanted` bytes of the room.
fn read_into<R: Source>(
    reader: &mut R,
    room: &mut Vec<u8>,
    wanted: usize,
) -> Result<usize, ReadFault>
    requires some { 0 < wanted }
    requires within { wanted ≤ vec_len room.old }
    ensures len { vec_len room.new ≡ vec_len room.old }
    ensures bound { IfOk result (λ count. count ≤ wanted) }
    ensures given { IfOk result (λ count.
        Consumes (R.left reader.old) (R.left reader.new) (slice_range room.new.items 0 count)) }
    ensures end { result ≡ Ok 0 → IsAtEnd (R.left reader.new) }
    ensures fine { OnOk result (R.read_failures reader.new ≡ R.read_failures reader.old) }
    ensures fault { IfErr result (λ fault.
        (fault ≡ Read) × HasFailed (R.read_failures reader.old) (R.read_failures reader.new)) }
{
    match reader.read(&mut room[0..wanted]) {
        Ok(count) => Ok(count),
        Err(_) => Err(ReadFault::Read),
    }
}
