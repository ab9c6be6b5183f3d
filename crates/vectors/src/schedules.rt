//! The vectors of schedules by their numbers: each plays one script over the public calls, and says whether the result
//! is the expected one.

use crate::outcome::play;
use command_line::CommandFault;
use drill_commands::NotDone;
use event_script::ScriptFault;
use example_texts::{REGISTERED_CLOSED, REPORT, SMALLEST};
use intake_core::Unavailable;
use key_string::KeyFault;
use outbox_core::StoreFault;
use schedule::Fault as WorldFault;
use std::alloc::{AllocError, Global};

/// The reply to the second registered report if the connection closes.
const REGISTERED_SECOND_CLOSED: &str =
    "HTTP/1.1 201 Created\r\nContent-Type: application/json\r\nContent-Length: 34\r\nConnection: close\r\n\r\n{\"number\":2,\"status\":\"registered\"}";

/// The reply to a key that was used for another body, if the connection closes.
const KEY_REUSED_CLOSED: &str =
    "HTTP/1.1 422 Unprocessable Content\r\nContent-Type: application/problem+json\r\nContent-Length: 89\r\nConnection: close\r\n\r\n{\"reason\":\"key-reused\",\"status\":422,\"title\":\"Unprocessable Content\",\"type\":\"about:blank\"}";

/// Runs the vector of this number, of 24 its end, of 27 its beginning, and says whether it passed. A number without a
/// schedule fails. If memory was refused, it answers that.
pub(crate) fn run(alloc: Global, number: u32) -> Result<bool, AllocError> {
    let passed = match number {
        15 => stopped_after_keeping(alloc),
        16 => two_outboxes(alloc),
        24 => nothing_to_deliver(alloc),
        27 => a_report_replaced(alloc),
        _ => Ok(false),
    };
    match passed {
        Ok(passed) => Ok(passed),
        Err(fault) if wants_memory(&fault) => Err(AllocError),
        Err(_) => Ok(false),
    }
}

/// Whether memory was refused.
fn wants_memory(fault: &NotDone) -> bool {
    match fault {
        NotDone::Command(CommandFault::Memory)
        | NotDone::Script(ScriptFault::Memory)
        | NotDone::World(WorldFault::Memory)
        | NotDone::Register(Unavailable::Memory)
        | NotDone::Outbox(StoreFault::Memory)
        | NotDone::Key(KeyFault::Memory) => true,
        _ => false,
    }
}

/// A script, and its expected result.
#[derive(Clone, Copy)]
struct Scene<'a> {
    script: &'a str,
    /// What the program `drill` prints.
    shown: &'a str,
    /// The bodies of the filings, in the order of their numbers.
    bodies: &'a [&'a str],
    /// What each delivery writes.
    written: &'a [&'a str],
}

impl Scene<'_> {
    /// Whether the script has the expected result.
    fn holds(&self, alloc: Global) -> Result<bool, NotDone> {
        let outcome = play(alloc, self.script)?;
        Ok(
            outcome.shown.as_slice() == self.shown.as_bytes()
                && outcome.has_bodies(self.bodies)
                && outcome.has_written(self.written),
        )
    }
}

/// Vector 15: the intake stops after it has kept the request and before it replies, both ends start again, and the
/// request is sent again. A front of the reply confirms nothing.
fn stopped_after_keeping(alloc: Global) -> Result<bool, NotDone> {
    let cut = format!(in alloc;
        r#"outbox ACME
put 1 "k-1" {REPORT}
send 1 1
deliver 1 all after 1
restart server
restart outbox 1
send 1 1
deliver 2 all
hand 2 20
"#
    )?;
    let whole = format!(in alloc; "{cut}hand 2 all\n")?;
    let open = Scene {
        script: &cut,
        shown: r#"filing 1 ACME "k-1"
entry 1 1 open
done 2
"#,
        bodies: &[REPORT],
        written: &["", REGISTERED_CLOSED],
    };
    let confirmed = Scene {
        script: &whole,
        shown: r#"filing 1 ACME "k-1"
entry 1 1 confirmed 1
done 2
"#,
        ..open
    };
    Ok(open.holds(alloc)? && confirmed.holds(alloc)?)
}

/// The beginning of vector 27: a report replaces one that was filed before, and the intake stops after it is kept.
fn a_report_replaced(alloc: Global) -> Result<bool, NotDone> {
    let script = format!(in alloc;
        r#"outbox ACME
put 1 "k-1" {REPORT}
amend 1 1 "k-2" {SMALLEST}
send 1 1
send 1 2
deliver 1 all
deliver 2 all after 1
restart server
deliver 2 all
hand 3 all
hand 1 all
"#
    )?;
    let scene = Scene {
        script: &script,
        shown: r#"filing 1 ACME "k-1"
filing 2 ACME "k-2" replaces 1
entry 1 1 confirmed 1
entry 1 2 confirmed 2
done 3
"#,
        bodies: &[REPORT, SMALLEST],
        written: &[REGISTERED_CLOSED, "", REGISTERED_SECOND_CLOSED],
    };
    scene.holds(alloc)
}

/// Vector 16: two outboxes of a filer send under one key, and what is delivered first is kept.
fn two_outboxes(alloc: Global) -> Result<bool, NotDone> {
    Ok(one_body_twice(alloc)? && two_bodies(alloc)?)
}

fn one_body_twice(alloc: Global) -> Result<bool, NotDone> {
    let script = under_one_key(alloc, SMALLEST, SMALLEST)?;
    Scene {
        script: &script,
        shown: r#"filing 1 ACME "k-1"
entry 1 1 confirmed 1
entry 2 1 confirmed 1
done 2
"#,
        bodies: &[SMALLEST],
        written: &[REGISTERED_CLOSED, REGISTERED_CLOSED],
    }
    .holds(alloc)
}

fn two_bodies(alloc: Global) -> Result<bool, NotDone> {
    let script = under_one_key(alloc, SMALLEST, REPORT)?;
    Scene {
        script: &script,
        shown: r#"filing 1 ACME "k-1"
entry 1 1 clashed
entry 2 1 confirmed 1
done 2
"#,
        bodies: &[REPORT],
        written: &[REGISTERED_CLOSED, KEY_REUSED_CLOSED],
    }
    .holds(alloc)
}

/// Two outboxes send a body each, and the second's comes first. Each gets the reply to its own body, the second twice.
fn under_one_key(alloc: Global, first: &str, second: &str) -> Result<String, NotDone> {
    Ok(format!(in alloc;
        r#"outbox ACME
outbox ACME
put 1 "k-1" {first}
put 2 "k-1" {second}
send 1 1
send 2 1
deliver 2 all
deliver 1 all
hand 2 all
hand 1 all
hand 1 all
"#
    )?)
}

/// The end of vector 24: nothing was sent that the first event could deliver.
fn nothing_to_deliver(alloc: Global) -> Result<bool, NotDone> {
    match play(alloc, "outbox ACME\ndeliver 1 all\n") {
        Err(NotDone::World(WorldFault::NoSuch { event })) => Ok(event == 1),
        Err(fault) => Err(fault),
        Ok(_) => Ok(false),
    }
}
