//! The run of a list of events.

ghost use Rattle.std.specs.Prelude.{◌≡◌, ◌≤◌, ◌^◌, map, false, None, IfOk, IfErr};
ghost use Rattle.event_script.specs.Events.{view_event, HaveTargets};
ghost use Rattle.filing_world.specs.Step.{Run};
ghost use Rattle.filing_world.specs.Headline.{AreFilers, Holds, start};
ghost use Rattle.schedule.specs.Ending.{EndsBy};

use crate::{Fault, Honest, World};
use event_script::Event;
use std::alloc::Global;

/// Plays the events on a new world, one after another, up to the first that has a fault.
pub fn run<D: Honest>(
    alloc: Global,
    filers: &[&str],
    limit: u64,
    events: &[Event],
) -> Result<World<D>, Fault>
    requires filers { AreFilers (map (λ f. f.now) filers.now) }
    requires limit { limit ≤ 2 ^ 62 }
    requires targets { HaveTargets (map view_event events.now) }
    ensures run { IfOk result (λ w.
        Run (start (map (λ f. f.now) filers.now) limit) (map view_event events.now) w.world) }
    ensures holds { IfOk result (λ w. Holds w.world) }
    ensures fine { IfOk result (λ w. w.fault ≡ None) }
    ensures there { IfOk result (λ w. w.taken ≡ false) }
    ensures ends { IfErr result (EndsBy (start (map (λ f. f.now) filers.now) limit) (map view_event events.now)) }
{
    let mut world = World::new(alloc, filers, limit)?;
    for event in events {
        world.play(event)?;
    }
    Ok(world)
}
