//! The end of a filer: the process that its outbox runs in.

ghost use Rattle.std.specs.Prelude.{◌≡◌, ◌≢◌, ◌↔◌, ◌++◌, ◌∷◌, [], ℕ, List, map, true, false, Option, Some, option_map};
ghost use Rattle.std.specs.Prelude.{IsTrue, IsSome, IfOk, IfErr, IfSome, OnOk, Err, if◌then◌else◌};
ghost use Rattle.http_messages.specs.Posting.{IsTarget};
ghost use Rattle.http_messages.specs.Reply.{ReplyParts};
ghost use Rattle.filing_model.specs.Outbox.{Entry as Item};
ghost use Rattle.filing_model.specs.Stopping.{No};
ghost use Rattle.filing_world.specs.World.{numbered};
ghost use Rattle.filer_client.specs.Exchange.{request_at};
ghost use Rattle.filing_world.specs.Step.{takes, Hears, heard_by};
ghost use Rattle.filing_world.specs.Headline.{states_of};
ghost use Rattle.sqlite.specs.Files.{over_files};
ghost use Rattle.outbox_core.specs.OutboxParts.{HasEntries};
ghost use Rattle.outbox_core.specs.Entries.{opened};
ghost use Rattle.schedule.specs.OutboxListed.{listed};
ghost use Rattle.schedule.specs.OutboxEnd.{Keeps, is_up, is_asleep, is_taken, IsNotStopped};
ghost use Rattle.schedule.specs.OutboxEnd.{IsNotStarted};
ghost use Rattle.schedule.specs.Outboxes.{up_with, after_answer, state_or, entries_after};

use crate::ends::fault::EndFault;
use crate::ends::honest::Honest;
use crate::ends::opening::{close, make, open};
use crate::ends::outboxes::{HearReply, ListStates, Put, WriteRequest, ask};
use database_places::{Blank, Drawer};
use key_string::KeyText;
use outbox_core::{Outbox, State, StoreFault};
use outbox_process::OutboxProcess;
use sqlite::FileStore;
use std::alloc::Global;

/// The process of an outbox in a drawer, up or down.
#[derive(Drop)]
pub struct OutboxEnd<D: Blank> {
    /// `None` after a fault took the process. After that no event is played.
    process: Option<OutboxProcess<D, Drawer<D>>>,
}

impl<D: Honest> OutboxEnd<D> {
    /// An outbox of this filer that is up and has no entries. Answers `Reopen` if its files were not opened, and
    /// `Store` if its tables were not made, for another cause than memory.
    pub fn new(alloc: Global, filer: &str) -> Result<OutboxEnd<D>, EndFault>
        ensures kept { IfOk result (λ end. Keeps end filer.now []) }
        ensures up { IfOk result (λ end. is_up end ≡ true) }
    {
        Ok(OutboxEnd {
            process: Some(make(alloc, filer)?),
        })
    }

    /// Whether it is up.
    pub fn is_up(&self) -> bool
        ensures { result ≡ is_up self.now }
    {
        match &self.process {
            Some(process) => process.is_open(),
            None => false,
        }
    }

    /// The outbox, if it is up.
    pub fn outbox(&self) -> Option<&Outbox<FileStore<D>>>
        ensures lent { IsSome result ↔ (is_up self.now ≡ true) }
        ensures keeps { (filer : List ℕ) (entries : List Item) → Keeps self.now filer entries
            → IfSome result (λ it. HasEntries over_files it.now entries × (it.now.filer ≡ filer)) }
    {
        match &self.process {
            Some(process) => process.outbox(),
            None => None,
        }
    }

    /// Closes the outbox, if it is up. Answers `Reopen` if it was not closed for another cause than memory, or if a
    /// fault took it before.
    pub fn stop(&mut self) -> Result<(), EndFault>
        ensures kept { (filer : List ℕ) (entries : List Item) → Keeps self.old filer entries
            → Keeps self.new filer entries }
        ensures down { OnOk result (is_up self.new ≡ false) }
        ensures stays { OnOk result ((is_taken self.old ≡ false) × (is_taken self.new ≡ false)) }
        ensures refused { IfErr result (IsNotStopped self.old) }
        ensures store { result ≢ Err EndFault.Store }
    {
        // It is taken out first, so that a refusal leaves no end.
        let Some(mut process) = self.process.take() else {
            return Err(EndFault::Reopen);
        };
        close(&mut process)?;
        self.process = Some(process);
        Ok(())
    }

    /// Opens the outbox again, unless it is up. Answers `Reopen` if it was not opened for another cause than memory, or
    /// if a fault took it before.
    pub fn start(&mut self, alloc: Global) -> Result<(), EndFault>
        ensures kept { (filer : List ℕ) (entries : List Item) → Keeps self.old filer entries
            → Keeps self.new filer entries }
        ensures up { OnOk result (is_up self.new ≡ true) }
        ensures stays { OnOk result ((is_taken self.old ≡ false) × (is_taken self.new ≡ false)) }
        ensures refused { IfErr result (IsNotStarted self.old) }
        ensures store { result ≢ Err EndFault.Store }
    {
        let Some(mut process) = self.process.take() else {
            return Err(EndFault::Reopen);
        };
        open(alloc, &mut process)?;
        self.process = Some(process);
        Ok(())
    }

    /// Puts copies of a key and a body into the outbox, to replace the filing of this number, if one is given. Answers
    /// whether they were taken: not if the body is too long or the key is used. Answers `Store` if it is down, or
    /// refused for another cause than memory.
    pub fn put(
        &mut self,
        alloc: Global,
        key: &KeyText,
        target: Option<u64>,
        body: &[u8],
    ) -> Result<bool, StoreFault>
        requires { IsTarget target }
        ensures taken { (filer : List ℕ) (entries : List Item) → Keeps self.old filer entries
            → IfOk result (λ is_taken. is_taken ≡ takes (up_with filer entries) (opened key.now target body.now)) }
        ensures kept { (filer : List ℕ) (entries : List Item) → Keeps self.old filer entries
            → Keeps self.new filer
            (after_answer result entries (λ t. if t then entries ++ opened key.now target body.now ∷ [] else entries)) }
        ensures up { is_up self.new ≡ is_up self.old }
        ensures stays { is_taken self.new ≡ is_taken self.old }
        ensures down { is_up self.old ≡ false → result ≡ Err StoreFault.Store }
    {
        ask(alloc, &mut self.process, Put { key, target, body })
    }

    /// The bytes of the request of the entry of this number, whatever its state, or `None` if there is no such entry.
    /// Answers `Store` if the outbox is down, or refused for another cause than memory.
    pub fn request(&mut self, alloc: Global, number: u64) -> Result<Option<Vec<u8>>, StoreFault>
        ensures bytes { (filer : List ℕ) (entries : List Item) → Keeps self.old filer entries
            → IfOk result (λ text. option_map (λ t. t.items) text ≡ request_at filer entries number) }
        ensures kept { (filer : List ℕ) (entries : List Item) → Keeps self.old filer entries
            → Keeps self.new filer entries }
        ensures up { is_up self.new ≡ is_up self.old }
        ensures stays { is_taken self.new ≡ is_taken self.old }
        ensures down { is_up self.old ≡ false → result ≡ Err StoreFault.Store }
    {
        ask(alloc, &mut self.process, WriteRequest { number })
    }

    /// Reads these bytes as the reply to the entry of this number, and answers the state to which the entry came, or
    /// `None` if the bytes give no reply. Answers `Store` if it is down, or did not take the reply for another cause
    /// than memory.
    pub fn hear(
        &mut self,
        alloc: Global,
        number: u64,
        bytes: &[u8],
    ) -> Result<Option<State>, StoreFault>
        ensures heard { (filer : List ℕ) (entries : List Item) → Keeps self.old filer entries
            → IfOk result (λ to. (what : Item) → numbered entries number ≡ Some what
            → (heard : Option ReplyParts) × Hears bytes.now No heard
            × (state_or what.state to ≡ heard_by what.state heard)) }
        ensures kept { (filer : List ℕ) (entries : List Item) → Keeps self.old filer entries
            → Keeps self.new filer (after_answer result entries (entries_after entries number)) }
        ensures up { is_up self.new ≡ is_up self.old }
        ensures stays { is_taken self.new ≡ is_taken self.old }
        ensures down { is_up self.old ≡ false → result ≡ Err StoreFault.Store }
    {
        ask(alloc, &mut self.process, HearReply { number, bytes })
    }

    /// The number and the state of each entry, in the order of the numbers. Answers `Store` if it is down, and
    /// otherwise only if its database refused.
    pub fn states(&mut self, alloc: Global) -> Result<Vec<(u64, State)>, StoreFault>
        ensures list { (filer : List ℕ) (entries : List Item) → Keeps self.old filer entries
            → IfOk result (λ s. (number : ℕ) → map (listed number) s.items ≡ states_of number 1 entries) }
        ensures kept { (filer : List ℕ) (entries : List Item) → Keeps self.old filer entries
            → Keeps self.new filer entries }
        ensures up { is_up self.new ≡ is_up self.old }
        ensures stays { is_taken self.new ≡ is_taken self.old }
        ensures down { is_up self.old ≡ false → result ≡ Err StoreFault.Store }
        ensures store { result ≡ Err StoreFault.Store → IsTrue (is_asleep self.new) }
    {
        ask(alloc, &mut self.process, ListStates)
    }
}
