//! The filer's end: its outbox, with a copy of its entries.

ghost use Rattle.std.specs.Prelude.{◌≡◌, ◌≢◌, ◌↔◌, ℕ, map, true, false, Option, Some, option_map, IsSome, IfOk, IfSome};
ghost use Rattle.std.specs.Prelude.{OnOk, Err};
ghost use Rattle.key_string.specs.Key.{IsKey};
ghost use Rattle.key_string.specs.Filer.{is_filer};
ghost use Rattle.http_messages.specs.Reply.{ReplyParts};
ghost use Rattle.filing_model.specs.Outbox.{Entry as Item};
ghost use Rattle.filing_model.specs.Stopping.{No, Before};
ghost use Rattle.filing_world.specs.World.{numbered, new_outbox};
ghost use Rattle.filing_world.specs.Step.{is_no, with_entry, Hears, box_after};
ghost use Rattle.filing_world.specs.Headline.{states_of};
ghost use Rattle.sqlite.specs.Files.{over_files};
ghost use Rattle.http_messages.specs.Posting.{IsTarget};
ghost use Rattle.outbox_core.specs.OutboxParts.{HasEntries};
ghost use Rattle.outbox_core.specs.Entries.{opened};
ghost use Rattle.event_script.specs.Events.{view_crash};
ghost use Rattle.filer_client.specs.Exchange.{request_at};
ghost use Rattle.schedule.specs.OutboxListed.{listed};

use crate::ends::fault::EndFault;
use crate::ends::honest::Honest;
use crate::ends::outbox_end::OutboxEnd;
use crate::report::{Report, set_state};
use event_script::Crash;
use key_string::KeyText;
use outbox_core::{Outbox, State, StoreFault};
use sqlite::FileStore;
use std::alloc::Global;
use std::marker::Model;

/// The outbox of a filer with copies of its entries, whether it is up or down.
pub(crate) struct Filer<D: Honest> {
    alloc: Global,
    code: String,
    entries: Vec<Report>,
    end: OutboxEnd<D>,
}

impl<D: Honest> Model for Filer<D> {
    ghost use Rattle.std.specs.Prelude.{string_bytes};
    ghost use Rattle.schedule.specs.OutboxEnd.{Keeps, is_up, is_asleep, is_taken};
    ghost use Rattle.schedule.specs.Filers.{FilerParts};

    ghost Value = { FilerParts };

    ghost view = { λ f. record {
      box = record { filer = string_bytes f.code; entries = f.entries.items; up = is_up f.end };
      asleep = is_asleep f.end;
      taken = is_taken f.end;
    } };

    ghost invariant = { λ f. Keeps f.end (string_bytes f.code) f.entries.items };
}

impl<D: Honest> Drop for Filer<D> {
    fn drop(self) {
        let Filer {
            alloc: _,
            code: _,
            entries: _,
            end: _,
        } = self;
    }
}

impl<D: Honest> Filer<D> {
    /// A filer with an outbox that is up and has no entry. For another cause than memory it answers `Reopen` if its
    /// files were not opened, and `Store` if its tables were not made.
    pub(crate) fn new(alloc: Global, code: &str) -> Result<Filer<D>, EndFault>
        requires { is_filer code.now ≡ true }
        ensures made { IfOk result (λ f. f.box ≡ new_outbox code.now) }
        ensures there { IfOk result (λ f. f.taken ≡ false) }
    {
        Ok(Filer {
            alloc,
            code: String::from_str(alloc, code)?,
            entries: Vec::new(alloc),
            end: OutboxEnd::new(alloc, code)?,
        })
    }

    /// Whether the outbox is up.
    pub(crate) fn is_up(&self) -> bool
        ensures { result ≡ self.now.box.up }
    {
        self.end.is_up()
    }

    /// Puts a report into the outbox. One whose body is too long, or whose key is used, is not taken, and that is no
    /// error. Answers `Store` if the outbox refused for another cause than memory.
    pub(crate) fn put(
        &mut self,
        key: &KeyText,
        target: Option<u64>,
        body: &[u8],
    ) -> Result<(), StoreFault>
        requires up { self.old.box.up ≡ true }
        requires target { IsTarget target }
        ensures put { OnOk result (self.new.box ≡ with_entry self.old.box (opened key.now target body.now)) }
        ensures key { OnOk result (IsKey key.now) }
        ensures stays { self.new.taken ≡ self.old.taken }
    {
        let report = Report::open(self.alloc, key, target, body)?;
        self.entries.reserve(1)?;
        let taken = self.end.put(self.alloc, key, target, body)?;
        if taken {
            self.entries.push_reserved(report);
        }
        Ok(())
    }

    /// The bytes of the request of the entry of this number, whatever its state, or `None` if there is no such entry.
    /// Answers `Store` if the outbox refused for another cause than memory.
    pub(crate) fn request(&mut self, entry: u64) -> Result<Option<Vec<u8>>, StoreFault>
        requires { self.old.box.up ≡ true }
        ensures bytes { IfOk result (λ text.
            option_map (λ t. t.items) text ≡ request_at self.old.box.filer self.old.box.entries entry) }
        ensures same { OnOk result (self.new.box ≡ self.old.box) }
        ensures stays { self.new.taken ≡ self.old.taken }
    {
        self.end.request(self.alloc, entry)
    }

    /// Hands these bytes to the entry of this number as the reply to its request. Bytes that give no reply move
    /// nothing, and are no error. Before a stop nothing is read of them. For another cause than memory it answers
    /// `Store` if the outbox did not take the reply, and `Reopen` if it did not give its files.
    pub(crate) fn hand(&mut self, entry: u64, bytes: &[u8], crash: Crash) -> Result<(), EndFault>
        requires { self.old.box.up ≡ true }
        ensures heard { OnOk result ((what : Item) → numbered self.old.box.entries entry ≡ Some what
            → (heard : Option ReplyParts) × Hears bytes.now (view_crash crash) heard
            × (self.new.box ≡ box_after self.old.box entry what heard (view_crash crash))) }
        ensures stays { OnOk result (self.new.taken ≡ self.old.taken) }
        ensures store { result ≡ Err EndFault.Store → (j : ℕ) → view_crash crash ≢ Before j }
        ensures reopen { result ≡ Err EndFault.Reopen → is_no (view_crash crash) ≡ false }
    {
        match crash {
            Crash::No => Ok(self.hear(entry, bytes)?),
            Crash::Before(_) => self.stop(),
            Crash::After(_) => {
                self.hear(entry, bytes)?;
                self.stop()
            }
        }
    }

    /// Hands these bytes to the entry of this number as the reply to its request, without a stop.
    fn hear(&mut self, entry: u64, bytes: &[u8]) -> Result<(), StoreFault>
        requires { self.old.box.up ≡ true }
        ensures heard { OnOk result ((what : Item) → numbered self.old.box.entries entry ≡ Some what
            → (heard : Option ReplyParts) × Hears bytes.now No heard
            × (self.new.box ≡ box_after self.old.box entry what heard No)) }
        ensures stays { self.new.taken ≡ self.old.taken }
    {
        if let Some(state) = self.end.hear(self.alloc, entry, bytes)? {
            set_state(&mut self.entries, entry, state);
        }
        Ok(())
    }

    /// Closes the outbox, if it is up. Answers `Reopen` if it was not closed for another cause than memory.
    fn stop(&mut self) -> Result<(), EndFault>
        ensures down { OnOk result (self.new.box ≡ record self.old.box { up = false }) }
        ensures stays { OnOk result (self.new.taken ≡ self.old.taken) }
        ensures store { result ≢ Err EndFault.Store }
    {
        self.end.stop()
    }

    /// Closes the outbox, if it is up, and opens it again, with the entries that it had. Answers `Reopen` if it was not
    /// closed or opened for another cause than memory.
    pub(crate) fn restart(&mut self) -> Result<(), EndFault>
        ensures restarted { OnOk result (self.new.box ≡ record self.old.box { up = true }) }
        ensures stays { OnOk result (self.new.taken ≡ self.old.taken) }
        ensures store { result ≢ Err EndFault.Store }
    {
        self.end.stop()?;
        self.end.start(self.alloc)
    }

    /// The number and the state of each entry, in the order of the numbers. Answers `Store` if the outbox is down, and
    /// otherwise only if its database refused.
    pub(crate) fn states(&mut self) -> Result<Vec<(u64, State)>, StoreFault>
        ensures same { self.new.box ≡ self.old.box }
        ensures stays { self.new.taken ≡ self.old.taken }
        ensures list { IfOk result (λ s.
            (number : ℕ) → map (listed number) s.items ≡ states_of number 1 self.old.box.entries) }
        ensures down { self.old.box.up ≡ false → result ≡ Err StoreFault.Store }
        ensures store { result ≡ Err StoreFault.Store → self.new.asleep ≡ true }
    {
        self.end.states(self.alloc)
    }

    /// The outbox, if it is up.
    pub(crate) fn outbox(&self) -> Option<&Outbox<FileStore<D>>>
        ensures lent { IsSome result ↔ (self.now.box.up ≡ true) }
        ensures keeps { IfSome result (λ b.
            HasEntries over_files b.now self.now.box.entries × (b.now.filer ≡ self.now.box.filer)) }
    {
        self.end.outbox()
    }
}
