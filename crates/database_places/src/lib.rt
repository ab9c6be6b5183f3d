//! Where the files of one database lie: in a drawer in memory, or under a name in the file system, also one that is
//! only read (`reading`). What may live here: how files are taken out, or waited for, how their database is opened,
//! closed and left there, and why it is refused. Of tables it knows only the names by which a register and an outbox
//! differ.
#![tactic(auto)]

mod access;
mod closing;
mod drawer;
mod fault;
mod flaw;
mod holding;
mod opening;
mod place;
mod reading;
mod refused;
mod system;
mod waiting;

pub use access::Access;
pub use closing::{close, give_up};
pub use drawer::{Blank, Drawer};
pub use flaw::{DatabaseFlaw, show_verdict};
pub use holding::{Holding, held_in};
pub use opening::{Opening, PageCache, Unopened, open, remove_new_log};
pub use place::Place;
pub use reading::ReadingFile;
pub use reading::place::ReadingPlace;
pub use reading::read_only::ReadOnlyFile;
pub use refused::refusal;
pub use system::{SystemFile, SystemPlace};
pub use waiting::WaitingPlace;
