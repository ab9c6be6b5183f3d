//! Serves standard input as one connection.

ghost use Rattle.http_wire.specs.Wire.{wire};
ghost use Rattle.intake_commands.specs.Tasks.{Runs};

use crate::fault::NotDone;
use crate::limit::Limit;
use command_line::DONE;
use gateway_server::Ended;
use http_wire::{Sink, Source};
use intake_process::run;
use std::alloc::Global;

/// Serves one connection on a register in memory, which begins empty and keeps at most `limit` keys.
pub(crate) fn run_once<'a, R: Source, W: Sink>(
    alloc: Global,
    limit: u64,
    reader: &mut R,
    writer: &mut W,
) -> Result<u8, NotDone<'a>>
    ensures { Runs limit (wire R.Source W.Sink reader.old writer.old) (wire R.Source W.Sink reader.new writer.new)
        result }
{
    let Some(limit) = Limit::new(limit) else {
        return Err(NotDone::Limit);
    };
    match run(alloc, limit.keys, reader, writer) {
        Ok(Ended::Closed) => Ok(DONE),
        Ok(Ended::InputEnded) => Ok(DONE),
        Ok(Ended::Fault(fault)) => Err(NotDone::Connection(fault)),
        Err(fault) => Err(NotDone::InMemory(fault)),
    }
}
