//! The world of a script.

ghost use Rattle.std.specs.Prelude.{◌≡◌, ◌≤◌, ◌^◌, map, string_bytes, Ok, IfOk, IfErr};
ghost use Rattle.drill_commands.specs.Refusals.{IsNotPlayed};
ghost use Rattle.event_script.specs.Events.{view_event, HaveTargets};
ghost use Rattle.event_script.specs.Restarts.{restarted};
ghost use Rattle.event_script.specs.Scripts.{Script as Said, script_of, view_script};
ghost use Rattle.filing_world.specs.Headline.{AreFilers, Holds, start};
ghost use Rattle.filing_world.specs.Step.{Run};

use crate::fault::NotDone;
use event_script::{Script, read_script};
use schedule::{Honest, World, run};
use std::alloc::Global;

/// What the bytes say, with a restart of every end after its events.
fn read(alloc: Global, bytes: &[u8]) -> Result<Script, NotDone>
    ensures said { IfOk result (λ script.
        (said : Said) × (script_of bytes.now ≡ Ok said) × (view_script script ≡ restarted said)) }
    ensures wrong { IfErr result (IsNotPlayed bytes.now) }
    ensures filers { IfOk result (λ script. AreFilers (map string_bytes script.filers.items)) }
    ensures limit { IfOk result (λ script. script.limit ≤ 2 ^ 62) }
    ensures targets { IfOk result (λ script. HaveTargets (map view_event script.events.items)) }
{
    let Ok(text) = str::from_utf8(bytes) else {
        return Err(NotDone::NotText);
    };
    let mut script = read_script(alloc, text)?;
    script.restart_all(alloc)?;
    Ok(script)
}

/// The world after the events of a script and a restart of every end, so that none is down. The script is as
/// `event_script::read_script` reads it. A refusal says what is wrong with it, or which event ended the run.
pub fn played<D: Honest>(alloc: Global, bytes: &[u8]) -> Result<World<D>, NotDone>
    ensures run { IfOk result (λ w. (said : Said) × (script_of bytes.now ≡ Ok said)
        × Run (start said.filers said.limit) (restarted said).events w.world) }
    ensures holds { IfOk result (λ w. Holds w.world) }
    ensures wrong { IfErr result (IsNotPlayed bytes.now) }
{
    let script = read(alloc, bytes)?;
    let filers = script.filer_codes(alloc)?;
    Ok(run(
        alloc,
        filers.as_slice(),
        script.limit,
        script.events.as_slice(),
    )?)
}
