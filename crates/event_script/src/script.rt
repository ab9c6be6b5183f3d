//! A script.

ghost use Rattle.std.specs.Prelude.{◌≡◌, map, string_bytes, IfOk, OnOk, OnErr};
ghost use Rattle.event_script.specs.Events.{view_event};
ghost use Rattle.event_script.specs.Restarts.{restarts, restarted};
ghost use Rattle.event_script.specs.Scripts.{view_script};

use crate::event::Event;
use std::alloc::{AllocError, Global};

/// What a script says.
#[derive(Drop)]
pub struct Script {
    /// The filers of the outboxes, which are numbered from 1 in this order. There is one at least,
    /// and each passes `is_filer`.
    pub filers: Vec<String>,
    /// How many filers' keys the intake may keep: at most 2^62.
    pub limit: u64,
    pub events: Vec<Event>,
}

impl Script {
    /// The filers as texts.
    pub fn filer_codes(&self, alloc: Global) -> Result<Vec<&str>, AllocError>
        ensures { IfOk result (λ codes. map (λ code. code.now) codes.items ≡ map string_bytes self.now.filers.items) }
    {
        self.filers
            .iter()
            .map(|filer| filer.as_str())
            .collect(alloc)
    }
    /// Appends a restart of the intake and of each outbox, after which no end is down. A restart changes nothing of an
    /// end that is up. An `Err` changes nothing.
    pub fn restart_all(&mut self, alloc: Global) -> Result<(), AllocError>
        ensures ok { OnOk result (view_script self.new ≡ restarted (view_script self.old)) }
        ensures err { OnErr result (view_script self.new ≡ view_script self.old) }
    {
        let mut restarts = restarts(alloc, self.filers.len() as u64)?;
        self.events.append(&mut restarts)
    }
}

/// A restart of the intake, and of each of so many outboxes.
fn restarts(alloc: Global, outboxes: u64) -> Result<Vec<Event>, AllocError>
    ensures { IfOk result (λ events. map view_event events.items ≡ restarts outboxes) }
{
    let mut events = Vec::new(alloc);
    events.push(Event::RestartServer)?;
    for before in 0..outboxes {
        let outbox = before + 1;
        events.push(Event::RestartOutbox { outbox })?;
    }
    Ok(events)
}
