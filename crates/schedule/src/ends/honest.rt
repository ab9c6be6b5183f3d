//! Disks that give back what was written.

ghost use Rattle.std.specs.Prelude.{◌≡◌, true, refl};

use crate::ends::durable::Durable;
use database_places::Blank;
use sqlite_disk::Memory;
use std::alloc::Global;

/// A disk of which each read gives what was written.
pub trait Honest: Blank {
    // No read of it ever gave anything else.
    ghost honest: { (disk : Self) → Self.Disk.is_clean disk ≡ true };
}

impl Blank for Durable {
    fn empty(alloc: Global) -> Durable {
        Durable::new(alloc)
    }
}

impl Honest for Durable {
    ghost honest = { λ _. refl };
}

impl Honest for Memory {
    ghost honest = { λ _. refl };
}
