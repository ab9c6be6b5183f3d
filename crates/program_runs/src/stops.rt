//! What is certain of a program that ends before it closes its files: it is killed, or the machine stops. What may live
//! here: what files hold that were not closed, and laws on what the next opening finds in them. There is no code but
//! one call, whose contract says what each connection keeps.
//!
//! What is proved, of disks that give back what was written:
//!
//! - A register or an outbox that is open, and between two calls, leaves files that hold its requests or entries, no
//!   more and no fewer: by the log and the database file together, so also if a commit was never copied into the
//!   database file. The next opening finds them, and fails for memory, for the disk or for a limit of the format alone.
//! - One that ends inside a call that adds a request, puts an entry in or moves one leaves what was there before, or
//!   that with this one change, and after an answer that with the change.
//! - A request that was being decided on a connection leaves, by the bytes that came, the marks and what was written,
//!   what the model of serving has that is stopped before this request or after it.
//! - So a run of `intake serve` that is killed is among what programs do, of which the headline holds, and what the
//!   files hold is what is kept then.
//! - The same holds after a close that failed, if the store that the close gave back is numbered, as that of each
//!   connection is. The contract of the close does not say it of that store.
//!
//! A kill leaves of each file what a read of it returned. A stop of the machine leaves contents that the disk may have
//! then, of each file apart: what was written since its last sync may be there in part, and the end of the log torn.
//!
//! What is not proved:
//!
//! - The clauses on crashes speak of the state in which a call ends. A process that is killed inside a call is one
//!   whose disk refuses each call from then on, so that the call ends in that state: this is said here in words alone.
//! - That the database of a register is open is asked of it. It is known after an opening and after each call that was
//!   answered; the contract of serving a whole connection does not say it.
//! - That a system keeps what a killed process wrote, and that a disk keeps what it synced, is asked of them.
//! - Nothing is said here of a register or an outbox that is being made or migrated, nor of a program's lines and
//!   status.
//! - Nothing is said of disks that gave back anything else.

ghost use Rattle.std.specs.Prelude.{◌≡◌, Bool, ◌⊎◌, ◌++◌, ◌∷◌, ℕ, List, [], Option, Result, IsTrue};
ghost use Rattle.sqlite_disk.specs.declared.Files.{Files};
ghost use Rattle.sqlite_store.specs.declared.store.FileStore.{FileStore as Stored};
ghost use Rattle.sqlite.specs.Held.{Held};
ghost use Rattle.sqlite.specs.Files.{over_files, file_state, FailsToOpenFiles};
ghost use Rattle.sqlite.specs.declared.error.Error.{Error};
ghost use Rattle.sqlite.specs.declared.file.Leftover.{Leftover};
ghost use Rattle.http_messages.specs.Reply.{ReplyParts};
ghost use Rattle.filing_model.specs.declared.answer.Answer.{Answer};
ghost use Rattle.filing_model.specs.declared.served.Mark.{Mark};
ghost use Rattle.filing_model.specs.declared.state.State.{State};
ghost use Rattle.filing_model.specs.Outbox.{Entry};
ghost use Rattle.filing_model.specs.Request.{Request, firsts};
ghost use Rattle.filing_model.specs.Serving.{IsCutShort, Keeping, keeping};
ghost use Rattle.filing_model.specs.Stopping.{Crash};
ghost use Rattle.filing_model.specs.Views.{the_request};
ghost use Rattle.table_rows.specs.declared.fault.StoreFault.{StoreFault};
ghost use Rattle.table_rows.specs.Standing.{CommitsNothing, HasCommitted};
ghost use Rattle.register_tables.specs.Registers.{IsRegisterOf};
ghost use Rattle.register_store.specs.declared.outcome.NewRow.{NewRow};
ghost use Rattle.filing_model.specs.declared.outcome.Outcome.{Outcome};
ghost use Rattle.register_store.specs.Store.{StoreParts, HasRequests, ForNew};
ghost use Rattle.register_store.specs.Store as register;
ghost use Rattle.register_store.specs.Calls.{AddsRequest};
ghost use Rattle.register_store.specs.Files.{HoldRegister};
ghost use Rattle.intake_core.specs.declared.intake.Intake.{Intake};
ghost use Rattle.intake_core.specs.declared.intake.Unavailable.{Unavailable};
ghost use Rattle.intake_core.specs.Held.{store_of, old_style_of, HoldsRequests, with_request};
ghost use Rattle.intake_core.specs.Held as intake;
ghost use Rattle.intake_core.specs.Calls.{DecidesRequest};
ghost use Rattle.intake_core.specs.Group.{Decided, DecidesEachIf};
ghost use Rattle.intake_core.specs.Looked.{AreNewIf, WasOpen};
ghost use Rattle.outbox_tables.specs.Entries.{Contents};
ghost use Rattle.outbox_tables.specs.Rows.{IsOutboxOf};
ghost use Rattle.outbox_core.specs.declared.fault.PutFault.{PutFault};
ghost use Rattle.outbox_core.specs.declared.fault.TakeFault.{TakeFault};
ghost use Rattle.outbox_core.specs.Entries.{opened};
ghost use Rattle.outbox_core.specs.OutboxParts.{OutboxParts, contents, HasEntries};
ghost use Rattle.outbox_core.specs.OutboxParts as outbox;
ghost use Rattle.outbox_core.specs.Calls.{PutsEntry, MovesEntry};
ghost use Rattle.outbox_core.specs.Files.{HoldOutbox};
ghost use Rattle.database_places.specs.Closing.{IsNotClosed};
ghost use Rattle.database_places.specs.Opening.{IsFoundIn};
ghost use Rattle.database_places.specs.Places.{IsHonest};
ghost use Rattle.programs.specs.Deliveries.{Delivery};
ghost use Rattle.intake_process.specs.declared.beginning.Totals.{Totals};
ghost use Rattle.intake_process.specs.Beginning.{AreTotals, FindsIntake, HoldsAs};
ghost use Rattle.programs.specs.Happenings.{Killing, Serving, Situation};
ghost use Rattle.program_runs.specs.Deciding.{HasRoom, IsDeciding, StopsAtRequest, StopsIn};
ghost use Rattle.program_runs.specs.Grouped.{HoldSome};
ghost use Rattle.program_runs.specs.Killed.{ComesOn, HappenedIn, cut_off, read_on};
ghost use Rattle.database_places.specs.Left.{AreLeftByKill, AreLeftByStop, EndsIn, FailsForCause, IsLastOf};
ghost use Rattle.database_places.specs.Left.{IsNumbered};
ghost use Rattle.outbox_process.specs.Process.{HoldOutboxWithLog};
ghost use Rattle.program_runs.specs.Outboxes.{HoldEitherOutbox, HoldMovedOutbox, OpensAsOutbox};
ghost use Rattle.intake_process.specs.Process.{HoldRegisterWithLog};
ghost use Rattle.program_runs.specs.StoppedRegisters.{HoldEitherRegister, OpensAsRegister};

use sqlite::{Connection, FileStore};
use sqlite_disk::Disk;

/// What a killed process leaves is among what a stop of the machine may leave. The files that a failed close left in
/// their place are those that a kill after it leaves.
pub fn a_kill_is_a_stop<D: Disk + Drop>()
    ensures kill { (it : Stored D D.Disk) (files : Files D) → AreLeftByKill it files → AreLeftByStop it files }
    ensures close { (conn : Held (Stored D D.Disk)) (files : Files D) (error : Error)
        → (failed : IsNotClosed conn files error) → IsLastOf conn failed.last × AreLeftByKill failed.last files }
{}

/// Each connection to files, whatever was done with it, has a store whose trees are numbered.
pub fn each_connection_is_numbered<D: Disk + Drop>(conn: Connection<FileStore<D>>)
    ensures { IsHonest D.Disk → IsNumbered conn.store }
{
    drop(conn.into_store());
}

/// An opening of files that hold a register by their log and their database file together is to that register, and is
/// not refused for what they hold. Files that were closed hold it so.
pub fn a_register_with_its_log_is_found<D: Disk + Drop>()
    ensures found { IsHonest D.Disk → (files : Files D) (old_style : ℕ) (requests : List Request)
        → HoldRegisterWithLog D.Disk files old_style requests → (conn : Held (Stored D D.Disk)) → IsFoundIn files conn
        → OpensAsRegister conn old_style requests }
    ensures refused { (files : Files D) (old_style : ℕ) (requests : List Request)
        → HoldRegisterWithLog D.Disk files old_style requests → (left : Leftover D D.Disk) (error : Error)
        → FailsToOpenFiles files left error → FailsForCause files left error }
    ensures closed { (files : Files D) (old_style : ℕ) (requests : List Request)
        → HoldRegister D.Disk files old_style requests
        → HoldRegisterWithLog D.Disk files old_style requests }
{}

/// A register that is open, and between two calls, leaves its requests, and so does one that was just answered.
pub fn a_register_outlives_its_process<D: Disk + Drop>()
    ensures rest { IsHonest D.Disk → (store : StoreParts (Stored D D.Disk)) (requests : List Request) (files : Files D)
        → IsTrue (register.shows over_files store).is_open → HasRequests over_files store requests
        → EndsIn store.conn files → HoldRegisterWithLog D.Disk files store.old_style requests }
    ensures durable { IsHonest D.Disk → (store : StoreParts (Stored D D.Disk)) (old_style : ℕ) (requests : List Request)
        (files : Files D) → register.IsDurableAs over_files store old_style requests
        → EndsIn store.conn files → HoldRegisterWithLog D.Disk files old_style requests }
{}

/// A register that was open as a call began which commits nothing leaves its requests, as a process that ends while it
/// is opened or read.
pub fn a_register_outlives_a_reading<D: Disk + Drop>()
    ensures { IsHonest D.Disk → (old new : Held (Stored D D.Disk)) (old_style : ℕ) (requests : List Request)
        (files : Files D) → IsTrue (file_state old).is_open
        → HasCommitted (IsRegisterOf old_style requests) (file_state old)
        → CommitsNothing (file_state old) (file_state new) → EndsIn new files
        → HoldRegisterWithLog D.Disk files old_style requests }
{}

/// A register that was open as `Store::add` began leaves its requests, or these and the one that was added.
pub fn a_register_outlives_an_addition<D: Disk + Drop>()
    ensures { IsHonest D.Disk → (row : NewRow) (old new : StoreParts (Stored D D.Disk))
        (result : Result Outcome StoreFault) (requests : List Request) (files : Files D)
        → AddsRequest over_files row old new result → IsTrue (register.shows over_files old).is_open
        → HasRequests over_files old requests → EndsIn new.conn files
        → ForNew requests (the_request row.filer.now row.key.now row.target row.body.now) row.judged.now (λ r.
        HoldEitherRegister D.Disk files old.old_style requests (requests ++ r ∷ [])) }
{}

/// A register that was open as `Intake::submit` began leaves its requests, or these and the one that was decided.
pub fn a_register_outlives_a_decision<D: Disk + Drop>()
    ensures { IsHonest D.Disk → (r : Request) (old new : Intake (Stored D D.Disk))
        (result : Result Answer Unavailable) (requests : List Request) (files : Files D)
        → DecidesRequest over_files r old new result → IsTrue (intake.shows over_files old).is_open
        → HoldsRequests over_files old requests → EndsIn (store_of new).conn files
        → HoldEitherRegister D.Disk files (old_style_of old) requests (with_request requests r) }
{}

/// A register that was open as `Intake::submit_all` began leaves its requests, or these and some of those that were to
/// be decided, in their order, as if each of these had been decided by itself. What was said to be new was new.
pub fn a_register_outlives_a_group<D: Disk + Drop>()
    ensures { IsHonest D.Disk → (are_new : Bool) (asked : List Request) (decided : List Decided)
        (old new : Intake (Stored D D.Disk)) (requests : List Request) (files : Files D)
        → DecidesEachIf over_files (WasOpen over_files are_new old) (AreNewIf are_new asked) decided old new
        → AreNewIf are_new asked requests → IsTrue (intake.shows over_files old).is_open
        → HoldsRequests over_files old requests → EndsIn (store_of new).conn files
        → HoldSome D.Disk files (old_style_of old) requests decided }
{}

/// A register that ends as a request that came on a connection is decided, and for which there is room, holds what the
/// model has that is stopped at this request, before it is decided or after it.
pub fn a_decision_that_ends_is_a_stop<D: Disk + Drop>()
    ensures { (requests : Keeping) (bytes : List ℕ) (marks : List Mark) (out : List ℕ) (r : Request) (files : Files D)
        (old_style : ℕ) → IsDeciding requests bytes marks out r → firsts requests.after ≡ requests.after
        → HasRoom requests.limit requests.after r
        → HoldEitherRegister D.Disk files old_style requests.after (with_request requests.after r)
        → StopsAtRequest D.Disk files old_style requests bytes marks out r }
{}

/// An intake that begins over a connection to a register holds its requests.
pub fn an_intake_begins_with_them<D: Disk + Drop>()
    ensures { IsHonest D.Disk → (conn : Held (Stored D D.Disk)) (limit old_style : ℕ) (requests : List Request)
        (intake : Intake (Stored D D.Disk)) (totals : Totals) → OpensAsRegister conn old_style requests
        → firsts requests ≡ requests → FindsIntake over_files conn limit intake totals
        → HoldsAs over_files limit old_style requests intake × AreTotals requests totals }
{}

/// A run of `intake serve` that is killed as it decides a request is among what programs do, and leaves what is kept
/// after that.
pub fn a_killed_run_happens<D: Disk + Drop>()
    ensures { (limit : ℕ) (old : Situation) (delivery : Delivery) (on : ComesOn limit old delivery)
        (after : List Request) (crash : Crash) (marks : List Mark) (written : List ℕ) (files : Files D)
        → StopsIn D.Disk files 0 (keeping on.keys [] old.requests after) (read_on on) crash marks written
        → HappenedIn D.Disk files limit old (Killing delivery crash marks written) }
{}

/// If it is killed as it reads or writes, the connection counts as served up to a fault.
pub fn a_connection_that_is_cut_off_happens<D: Disk + Drop>()
    ensures { (limit : ℕ) (old : Situation) (delivery : Delivery) (on : ComesOn limit old delivery)
        (after : List Request) (marks : List Mark) (written : List ℕ) (files : Files D)
        → IsCutShort (keeping on.keys [] old.requests after) (read_on on) marks written
        → HoldRegisterWithLog D.Disk files 0 after
        → HappenedIn D.Disk files limit old (Serving delivery (cut_off (read_on on) marks written)) }
{}

/// An opening of files that hold an outbox by their log and their database file together is to that outbox, and is not
/// refused for what they hold. Files that were closed hold it so.
pub fn an_outbox_with_its_log_is_found<D: Disk + Drop>()
    ensures found { IsHonest D.Disk → (files : Files D) (it : Contents) → HoldOutboxWithLog D.Disk files it
        → (conn : Held (Stored D D.Disk)) → IsFoundIn files conn → OpensAsOutbox conn it }
    ensures refused { (files : Files D) (it : Contents) → HoldOutboxWithLog D.Disk files it
        → (left : Leftover D D.Disk) (error : Error) → FailsToOpenFiles files left error
        → FailsForCause files left error }
    ensures closed { (files : Files D) (it : Contents) → HoldOutbox D.Disk files it
        → HoldOutboxWithLog D.Disk files it }
{}

/// An outbox that is open, and between two calls, leaves its entries, and so does one that was just answered.
pub fn an_outbox_outlives_its_process<D: Disk + Drop>()
    ensures rest { IsHonest D.Disk → (box : OutboxParts (Stored D D.Disk)) (entries : List Entry) (files : Files D)
        → IsTrue (outbox.shows over_files box).is_open → HasEntries over_files box entries → EndsIn box.conn files
        → HoldOutboxWithLog D.Disk files (contents box entries) }
    ensures durable { IsHonest D.Disk → (box : OutboxParts (Stored D D.Disk)) (it : Contents) (files : Files D)
        → outbox.IsDurableAs over_files box it → EndsIn box.conn files → HoldOutboxWithLog D.Disk files it }
{}

/// An outbox that was open as a call began which commits nothing leaves its entries.
pub fn an_outbox_outlives_a_reading<D: Disk + Drop>()
    ensures { IsHonest D.Disk → (old new : Held (Stored D D.Disk)) (it : Contents) (files : Files D)
        → IsTrue (file_state old).is_open → HasCommitted (IsOutboxOf it) (file_state old)
        → CommitsNothing (file_state old) (file_state new) → EndsIn new files → HoldOutboxWithLog D.Disk files it }
{}

/// An outbox that was open as an entry was put in leaves its entries, or these and this one.
pub fn an_outbox_outlives_an_entry<D: Disk + Drop>()
    ensures { IsHonest D.Disk → (old new : OutboxParts (Stored D D.Disk)) (key : List ℕ) (target : Option ℕ)
        (body : List ℕ) (result : Result ℕ PutFault) (entries : List Entry) (files : Files D)
        → PutsEntry over_files old new key target body result → IsTrue (outbox.shows over_files old).is_open
        → HasEntries over_files old entries → EndsIn new.conn files
        → HoldEitherOutbox D.Disk files (contents old entries)
        (contents old (entries ++ opened key target body ∷ [])) }
{}

/// An outbox that was open as a reply moved an entry leaves its entries as they were before the move, or after it.
pub fn an_outbox_outlives_a_move<D: Disk + Drop>()
    ensures { IsHonest D.Disk → (old new : OutboxParts (Stored D D.Disk)) (id : ℕ) (reply : ReplyParts)
        (result : Result State TakeFault) (entries : List Entry) (files : Files D)
        → MovesEntry over_files old new id reply result → IsTrue (outbox.shows over_files old).is_open
        → HasEntries over_files old entries → EndsIn new.conn files
        → HoldOutboxWithLog D.Disk files (contents old entries)
        ⊎ HoldMovedOutbox D.Disk files (contents old entries) id reply }
{}
