//! A place whose files are waited for.

ghost use Rattle.std.specs.Prelude.{◌≡◌};
ghost use Rattle.database_places.specs.Places.{Leaves};

use crate::place::Place;
use command_line::{DatabaseFault, Deadline};
use sqlite::Files;
use sqlite_disk::Disk;
use std::alloc::Global;
use std::thread;
use std::time::{Clock, Duration};

/// The milliseconds between two tries.
const PAUSE: u64 = 50;

/// How many tries are made in a second at most.
const TRIES: u64 = 20;

/// A place whose files are waited for: they are taken as soon as no other program has them, up to a deadline. A loop
/// around a task would have to tell this refusal from what the task printed.
#[derive(Drop)]
pub struct WaitingPlace<'r, P, C> {
    pub place: P,
    clock: &'r C,
    /// How often the files are tried again at most.
    tries: u64,
    /// The moment until which they are tried. `None` if the clock cannot be read: then they are not tried again.
    deadline: Option<Deadline<'r, C>>,
}

impl<'r, P, C: Clock> WaitingPlace<'r, P, C> {
    /// This place, whose files are waited for until so many seconds from now are over.
    pub fn new(clock: &'r C, place: P, seconds: u32) -> WaitingPlace<'r, P, C>
        ensures { result.place ≡ place }
    {
        let seconds = u64::from(seconds);
        WaitingPlace {
            place,
            clock,
            tries: seconds * TRIES,
            deadline: Deadline::after(clock, Some(Duration::from_secs(seconds))).ok(),
        }
    }

    /// Whether the files may be tried again.
    fn has_time(&self) -> bool {
        match &self.deadline {
            Some(deadline) => !deadline.is_over(),
            None => false,
        }
    }
}

impl<D: Disk + Drop, P: Place<D>, C: Clock> Place<D> for WaitingPlace<'_, P, C> {
    ghost lying = { λ waiting. P.lying waiting.place };

    ghost file = { λ waiting. P.file waiting.place };

    fn seed(&self) -> Option<u64> {
        self.place.seed()
    }

    fn is_missing(&self) -> bool {
        self.place.is_missing()
    }

    fn is_empty(&self) -> bool {
        self.place.is_empty()
    }

    fn first_page(&self, alloc: Global) -> Vec<u8> {
        self.place.first_page(alloc)
    }

    fn len(&self) -> u64 {
        self.place.len()
    }

    fn has_log(&self) -> bool {
        self.place.has_log()
    }

    fn remove_empty_log(&self) {
        self.place.remove_empty_log()
    }

    // Each try but the last is refused because another program has the files, and takes nothing.
    fn take(&mut self) -> Result<Files<D>, DatabaseFault> {
        // The tries are counted, so waiting ends whatever the clock says.
        for _ in 0..self.tries {
            match self.place.take() {
                Err(DatabaseFault::Busy) if self.has_time() => {
                    thread::sleep(self.clock, Duration::from_millis(PAUSE));
                }
                taken => return taken,
            }
        }
        self.place.take()
    }

    fn leave(&mut self, files: Files<D>)
        ensures left { Leaves (P.lying self.old.place) (P.lying self.new.place) files }
        ensures named { P.file self.new.place ≡ P.file self.old.place }
    {
        self.place.leave(files);
    }
}
