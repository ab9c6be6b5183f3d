//! The lines that show what came of a world.

ghost use Rattle.std.specs.Prelude.{◌≡◌, ◌++◌, map, false, Err, IfOk, IfErr, OnOk, OnErr, IsErr};
ghost use Rattle.std.specs.List.{flat_map};
ghost use Rattle.command_line.specs.declared.fault.CommandFault.TheVariants.{Memory};
ghost use Rattle.intake_core.specs.declared.intake.Unavailable.TheVariants.{Down};
ghost use Rattle.drill_commands.specs.Refusals.{AreNotShown, IsNotShown};
ghost use Rattle.drill_commands.specs.Shown.{filing_shown, entry_shown, world_shown};
ghost use Rattle.schedule.specs.Listed.{view_listed, are_up};
ghost use Rattle.schedule.specs.Played.{IsSame};

use crate::fault::NotDone;
use event_script::{append_done, append_entry, append_filing};
use filing_model::Registered;
use outbox_core::State;
use schedule::{Honest, World};
use std::alloc::Global;

/// Appends a line for each filing.
fn append_filings(filings: &[Registered], text: &mut Vec<u8>) -> Result<(), NotDone>
    ensures lines { OnOk result (text.new.items ≡ text.old.items ++ flat_map filing_shown filings.now) }
    ensures refusal { IfErr result (AreNotShown filings.now) }
{
    for filing in filings {
        append_filing(
            filing.number,
            filing.filer.as_str(),
            filing.key.as_str(),
            filing.replaces,
            text,
        )?;
    }
    Ok(())
}

/// Appends a line for each entry: the number of its outbox, its own, and its state.
fn append_entries(entries: &[(u64, u64, State)], text: &mut Vec<u8>) -> Result<(), NotDone>
    ensures lines { OnOk result
        (text.new.items ≡ text.old.items ++ flat_map entry_shown (map view_listed entries.now)) }
    ensures memory { OnErr result (result ≡ Err (NotDone.Command Memory)) }
{
    for &(outbox, entry, state) in entries {
        append_entry(outbox, entry, state, text)?;
    }
    Ok(())
}

/// A line for each filing and for each entry, and one that counts the completed requests. The fault is `Register` if
/// the intake is down; nothing is shown if an outbox is down.
pub fn shown<D: Honest>(alloc: Global, world: &mut World<D>) -> Result<Vec<u8>, NotDone>
    ensures lines { IfOk result (λ text. text.items ≡ world_shown world.old.world) }
    ensures refusal { IfErr result (IsNotShown world.old.world) }
    ensures down { world.old.world.up ≡ false → result ≡ Err (NotDone.Register Down) }
    ensures outbox_down { are_up world.old.world.outboxes ≡ false → IsErr result }
    ensures same { IsSame world.old world.new }
{
    let filings = world.register()?;
    let entries = world.states()?;
    let mut text = Vec::new(alloc);
    append_filings(filings.as_slice(), &mut text)?;
    append_entries(entries.as_slice(), &mut text)?;
    append_done(world.done().len(), &mut text)?;
    Ok(text)
}
