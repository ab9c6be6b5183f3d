//! One read of a reader.
ghost use Rattle.std.specs.Prelude.{◌≡◌, ◌<◌, ◌≤◌, length, take, IfOk, IfErr, OnOk, OnErr, Ok};
ghost use Rattle.std.specs.Io.KnownBytes.{Consumes, Keeps, IsAtEnd};
ghost use Rattle.http_wire.specs.Fill.{IsFillFault};

use crate::device::Source;
use http_messages::ConnFault;

/// The most bytes of one read, and those that there is memory for at first.
pub(crate) const CHUNK: usize = 16_384;

/// The most reads of one connection that give bytes. An own rule. Contracts say it by bytes, at least
/// one for each read that is counted, since a reader names its bytes and not its reads.
pub const MAX_READS: u32 = 4_194_304;

/// Makes one read into the front of the room. The answer is the count of the bytes, which is 0 only at the end of the
/// input.
pub(crate) fn read_into<R: Source>(reader: &mut R, room: &mut [u8]) -> Result<usize, ConnFault>
    requires { 0 < length room.old }
    ensures len { length room.new ≡ length room.old }
    ensures bound { IfOk result (λ count. count ≤ length room.old) }
    ensures given { IfOk result (λ count. Consumes (R.left reader.old) (R.left reader.new) (take count room.new)) }
    ensures end { result ≡ Ok 0 → IsAtEnd (R.left reader.new) }
    ensures err { OnErr result (Keeps (R.left reader.old) (R.left reader.new)) }
    ensures fine { OnOk result (R.read_failures reader.new ≡ R.read_failures reader.old) }
    ensures fault { IfErr result (IsFillFault (R.read_failures reader.old) (R.read_failures reader.new)) }
{
    match reader.read(room) {
        Ok(count) => Ok(count),
        Err(_) => Err(ConnFault::Read),
    }
}
