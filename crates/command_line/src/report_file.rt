//! Reading the file of a report.

ghost use Rattle.std.specs.Prelude.{◌≡◌, IfOk, IfErr, OnOk};
ghost use Rattle.command_line.specs.Reading.{IsWhole, IsNotWhole};
ghost use Rattle.command_line.specs.declared.fault.CommandFault.TheVariants.{Report};

use crate::bytes::{ReadFault, read_whole};
use crate::fault::CommandFault;
use http_wire::{Device, MAX_BODY_LEN, Source};
use std::alloc::Global;
use std::fs::File;

/// The bytes of the report that a reader gives, at most 1,048,576.
pub fn report_from<R: Source>(alloc: Global, reader: &mut R) -> Result<Vec<u8>, ReadFault>
    ensures whole { IfOk result (λ body.
        IsWhole (R.left reader.old) (R.left reader.new) MAX_BODY_LEN body.items) }
    ensures fine { OnOk result (R.read_failures reader.new ≡ R.read_failures reader.old) }
    ensures fault { IfErr result (IsNotWhole R.left R.read_failures MAX_BODY_LEN reader.old reader.new) }
{
    read_whole(alloc, reader, MAX_BODY_LEN)
}

fn read(rt: &HostRuntime, name: &str) -> Result<Vec<u8>, ReadFault> {
    report_from(rt.alloc(), &mut Device::new(File::open(rt, name)?))
}

/// The bytes of a report's file, at most 1,048,576.
pub fn report<'a>(rt: &HostRuntime, name: &'a str) -> Result<Vec<u8>, CommandFault<'a>>
    ensures { IfErr result (λ fault. (why : ReadFault) × (fault ≡ Report name.entry why)) }
{
    match read(rt, name) {
        Ok(body) => Ok(body),
        Err(fault) => Err(CommandFault::Report { name, fault }),
    }
}
