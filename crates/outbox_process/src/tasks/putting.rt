//! Puts a report in, and prints its id.

ghost use Rattle.http_messages.specs.Posting.{IsTarget};
ghost use Rattle.outbox_process.specs.Putting.{PutsAndTells};

use crate::fault::Why;
use crate::tasks::lines::print_id;
use key_string::KeyText;
use outbox_core::Outbox;
use sqlite::Alter;
use std::alloc::Global;
use std::io::Write;

/// Puts a report in as an open entry, to replace a filing or none, and prints its id. If the id could not be printed,
/// the fault names it, and the report is in the outbox; after any other fault it is not.
pub fn put<S: Alter, O: Write>(
    alloc: Global,
    outbox: &mut Outbox<S>,
    key: KeyText,
    target: Option<u64>,
    body: Vec<u8>,
    output: &mut O,
) -> Result<u64, Why>
    requires { IsTarget target }
    ensures { PutsAndTells S.Store outbox.old outbox.new key target body.items (O.contents output.old)
        (O.contents output.new) result }
{
    // It is committed before its id is printed, so each report whose id was printed is kept.
    match outbox.put(key, target, body) {
        Ok(id) => match print_id(alloc, id, output) {
            Ok(()) => Ok(id),
            Err(why) => Err(Why::NotTold {
                id,
                wants_memory: matches!(why, Why::Memory),
            }),
        },
        Err(fault) => Err(Why::Put(fault)),
    }
}
