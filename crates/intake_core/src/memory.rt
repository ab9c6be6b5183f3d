//! An intake over a register in memory.

ghost use Rattle.std.specs.Prelude.{◌≡◌, ◌≢◌, ◌≤◌, ◌^◌, [], false, Err, IfOk};
ghost use Rattle.sqlite.specs.Steps.{over_memory};
ghost use Rattle.intake_core.specs.Held.{limit_of, old_style_of, has_stopped, HoldsRequests};

use crate::intake::Intake;
use register_store::{CreateFault, Store};
use sqlite::{Connection, MemStore};
use std::alloc::Global;

impl Intake<MemStore> {
    /// An intake over an empty register in memory, which goes with it. It keeps at most `limit` keys.
    pub fn in_memory(alloc: Global, limit: u64) -> Result<Intake<MemStore>, CreateFault>
        requires { limit ≤ 2 ^ 62 }
        ensures limit { IfOk result (λ intake. limit_of intake ≡ limit) }
        ensures empty { IfOk result (λ intake. HoldsRequests over_memory intake []) }
        ensures problem { IfOk result (λ intake. old_style_of intake ≡ 0) }
        ensures up { IfOk result (λ intake. has_stopped intake ≡ false) }
        ensures free { result ≢ Err CreateFault.Taken }
    {
        match Connection::open_in_memory(alloc) {
            Ok(conn) => Ok(Intake::new(alloc, Store::create(alloc, conn)?, limit)),
            Err(_) => Err(CreateFault::Memory),
        }
    }
}
