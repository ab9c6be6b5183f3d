//! What came of a script, without the world in which it was played.

use drill_commands::{NotDone, played, shown};
use filing_model::Registered;
use schedule::{Honest, Output, World};
use sqlite_disk::Memory;
use std::alloc::Global;

/// What came of a script.
#[derive(Drop)]
pub(crate) struct Outcome {
    /// The register, ascending by number.
    pub(crate) filings: Vec<Registered>,
    /// The lines that the program `drill` prints.
    pub(crate) shown: Vec<u8>,
    /// What each delivery wrote.
    pub(crate) written: Vec<Vec<u8>>,
}

impl Outcome {
    /// Whether the filings have these bodies, in the order of their numbers.
    pub(crate) fn has_bodies(&self, bodies: &[&str]) -> bool {
        self.filings.len() == bodies.len()
            && self
                .filings
                .iter()
                .zip(bodies)
                .all(|(filing, body)| filing.body.as_slice() == body.as_bytes())
    }

    /// Whether the deliveries wrote these texts.
    pub(crate) fn has_written(&self, texts: &[&str]) -> bool {
        self.written.len() == texts.len()
            && self
                .written
                .iter()
                .zip(texts)
                .all(|(bytes, text)| bytes.as_slice() == text.as_bytes())
    }
}

/// Plays a script over databases in memory, starts each end that is down then, and answers what came of it.
pub(crate) fn play(alloc: Global, script: &str) -> Result<Outcome, NotDone> {
    play_on::<Memory>(alloc, script)
}

fn play_on<D: Honest>(alloc: Global, script: &str) -> Result<Outcome, NotDone> {
    let mut world = played::<D>(alloc, script.as_bytes())?;
    outcome_of(alloc, &mut world)
}

fn outcome_of<D: Honest>(alloc: Global, world: &mut World<D>) -> Result<Outcome, NotDone> {
    let shown = shown(alloc, world)?;
    let filings = filings(world)?;
    let written = written(alloc, world.outputs())?;
    Ok(Outcome {
        filings,
        shown,
        written,
    })
}

fn filings<D: Honest>(world: &mut World<D>) -> Result<Vec<Registered>, NotDone> {
    Ok(world.register()?)
}

fn written(alloc: Global, outputs: &[Output]) -> Result<Vec<Vec<u8>>, NotDone> {
    let mut written = Vec::new(alloc);
    for output in outputs {
        let bytes = output.bytes.as_slice().to_vec(alloc)?;
        written.reserve(1)?;
        written.push_reserved(bytes);
    }
    Ok(written)
}
