//! The headline: a list of events, played on a new world (`events`). What may live here: the intake, the outboxes of
//! its filers and the network between them, each end up or down, with what it completed and kept; how their processes
//! are made, asked, closed and opened again (`ends`, `opening`); what one event does to the world; the run of a list,
//! and why one ended. What an event may do is defined in `filing_world`; that the world does nothing else is the
//! contract of `World::play`.
#![tactic(auto)]

mod deliver;
mod delivery;
mod element;
mod ends;
mod events;
mod fault;
mod filer;
mod hand;
mod listing;
mod lists;
mod opening;
mod put;
mod report;
mod restart;
mod send;
mod server;
mod world;

pub use ends::durable::Durable;
pub use ends::fault::EndFault;
pub use ends::honest::Honest;
pub use ends::keys::copy_key;
pub use ends::outbox_end::OutboxEnd;
pub use event_script::{Crash, Event, Script, ScriptFault, read_script};
pub use events::run;
pub use fault::Fault;
pub use lists::{Output, Sent};
pub use world::World;
