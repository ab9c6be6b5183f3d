//! Files that another program has for a while, in a place that waits for them, on a clock that the test turns.

ghost use Rattle.std.specs.Prelude.{None};
ghost use Rattle.database_places.specs.Places.{Leaves};

use command_line::DatabaseFault;
use database_places::{Drawer, Place, WaitingPlace};
use sqlite::Files;
use sqlite_disk::Memory;
use std::alloc::Global;
use std::cell::Cell;
use std::io;
use std::process::Abort;
use std::test::Fail;
use std::time::{Clock, Duration};

/// A clock that goes on as long as one sleeps, and by this much with each look at it.
#[derive(Drop)]
struct Sleeps {
    milliseconds: Cell<u64>,
    a_look: u64,
}

impl Sleeps {
    fn go_on(&self, milliseconds: u64) {
        let now = self.milliseconds.get();
        self.milliseconds.set(now.saturating_add(milliseconds));
    }
}

impl Clock for Sleeps {
    fn monotonic(&self) -> io::Result<Duration> {
        let now = self.milliseconds.get();
        self.go_on(self.a_look);
        Ok(Duration::from_millis(now))
    }

    fn since_1970(&self) -> io::Result<Duration> {
        self.monotonic()
    }

    fn sleep(&self, duration: Duration) {
        self.go_on(u64::from(duration.subsec_millis()));
    }
}

/// A place whose files another program has until they were tried so often, and which counts the tries.
#[derive(Drop)]
struct Taken<'a> {
    tries: &'a Cell<u64>,
    busy: u64,
    is_denied: bool,
    drawer: Drawer<Memory>,
}

impl Place<Memory> for Taken<'_> {
    ghost lying = { λ _. None };

    ghost file = { λ _. None };

    fn seed(&self) -> Option<u64> {
        self.drawer.seed()
    }

    fn is_missing(&self) -> bool {
        self.drawer.is_missing()
    }

    fn is_empty(&self) -> bool {
        self.drawer.is_empty()
    }

    fn first_page(&self, alloc: Global) -> Vec<u8> {
        self.drawer.first_page(alloc)
    }

    fn len(&self) -> u64 {
        self.drawer.len()
    }

    fn has_log(&self) -> bool {
        self.drawer.has_log()
    }

    fn remove_empty_log(&self) {}

    fn take(&mut self) -> Result<Files<Memory>, DatabaseFault> {
        let before = self.tries.get();
        self.tries.set(before.saturating_add(1));
        if before < self.busy {
            Err(DatabaseFault::Busy)
        } else if self.is_denied {
            Err(DatabaseFault::Denied)
        } else {
            self.drawer.take()
        }
    }

    fn leave(&mut self, files: Files<Memory>)
        ensures left { Leaves None None files }
    {
        self.drawer.leave(files);
    }
}

/// What comes of taking the files of such a place.
struct Case {
    /// For how many seconds they are waited for.
    seconds: u32,
    /// How many tries find that another program has them.
    busy: u64,
    /// Whether the system refuses them then.
    is_denied: bool,
    /// By how many milliseconds the clock goes on with each look at it.
    a_look: u64,
    fault: Option<DatabaseFault>,
    tries: u64,
}

const FREE: Case = Case {
    seconds: 0,
    busy: 0,
    is_denied: false,
    a_look: 0,
    fault: None,
    tries: 1,
};

/// A pause has 50 milliseconds, so that a second has 20 of them, and one more try after the last.
static CASES: [Case; 9] = [
    FREE,
    Case {
        busy: 1,
        fault: Some(DatabaseFault::Busy),
        ..FREE
    },
    Case {
        seconds: 1,
        busy: 1,
        tries: 2,
        ..FREE
    },
    Case {
        seconds: 1,
        busy: 20,
        tries: 21,
        ..FREE
    },
    Case {
        seconds: 1,
        busy: 21,
        fault: Some(DatabaseFault::Busy),
        tries: 21,
        ..FREE
    },
    // The time is over after the first try.
    Case {
        seconds: 1,
        busy: 9,
        a_look: 1_000,
        fault: Some(DatabaseFault::Busy),
        ..FREE
    },
    // And after the second: looks come after 500 and 1,050 milliseconds.
    Case {
        seconds: 1,
        busy: 9,
        a_look: 500,
        fault: Some(DatabaseFault::Busy),
        tries: 2,
        ..FREE
    },
    // No other refusal is waited for.
    Case {
        seconds: 60,
        is_denied: true,
        fault: Some(DatabaseFault::Denied),
        ..FREE
    },
    Case {
        seconds: 60,
        busy: 2,
        is_denied: true,
        fault: Some(DatabaseFault::Denied),
        tries: 3,
        ..FREE
    },
];

/// Whether taking the files comes out as this case says.
fn comes_out(alloc: Global, case: &Case) -> bool {
    let tries = Cell::new(0);
    let clock = Sleeps {
        milliseconds: Cell::new(0),
        a_look: case.a_look,
    };
    let taken = Taken {
        tries: &tries,
        busy: case.busy,
        is_denied: case.is_denied,
        drawer: Drawer::new(alloc),
    };
    let mut place = WaitingPlace::new(&clock, taken, case.seconds);
    let fault = place.take().err();
    fault == case.fault && tries.get() == case.tries
}

#[test]
fn files_are_waited_for_as_long_as_said(rt: HostRuntime) -> Result<(), Fail> {
    for case in &CASES {
        assert!(rt; comes_out(rt.alloc(), case));
    }
    Ok(())
}
