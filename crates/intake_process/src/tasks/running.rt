//! Serves one connection on a register in memory.

ghost use Rattle.std.specs.Prelude.{◌≡◌, ◌≤◌, ◌^◌, IfOk, OnErr};
ghost use Rattle.http_wire.specs.Wire.{wire};
ghost use Rattle.intake_process.specs.Tasks.{ServesAlone};

use gateway_server::{Ended, serve};
use http_wire::{Sink, Source};
use intake_core::Intake;
use register_store::CreateFault;
use std::alloc::Global;

/// Serves one connection on a register in memory, which begins empty and keeps at most `limit` keys, and answers how
/// the connection ended.
pub fn run<R: Source, W: Sink>(
    alloc: Global,
    limit: u64,
    reader: &mut R,
    writer: &mut W,
) -> Result<Ended, CreateFault>
    requires { limit ≤ 2 ^ 62 }
    ensures served { IfOk result (ServesAlone limit (wire R.Source W.Sink reader.old writer.old)
        (wire R.Source W.Sink reader.new writer.new)) }
    ensures untouched { OnErr result ((reader.new ≡ reader.old) × (writer.new ≡ writer.old)) }
{
    let mut intake = Intake::in_memory(alloc, limit)?;
    Ok(serve(alloc, reader, writer, &mut intake).ended)
}
