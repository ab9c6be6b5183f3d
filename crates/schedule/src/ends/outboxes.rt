//! A call on an outbox is a value, a `Call`: what it does is written over any store, and `ask_process` is the one
//! function that makes it on a store in files, since each such function costs much to prove.

ghost use Rattle.std.specs.Prelude.{◌≡◌, ◌++◌, ◌∷◌, [], ℕ, List, Bool, map, false, Option, Some, is_some, option_map};
ghost use Rattle.std.specs.Prelude.{IsTrue, IfOk, Err, if◌then◌else◌};
ghost use Rattle.http_messages.specs.Reply.{ReplyParts};
ghost use Rattle.filing_model.specs.Outbox.{Entry as Item};
ghost use Rattle.filing_model.specs.Stopping.{No};
ghost use Rattle.filing_world.specs.World.{Outbox as Ours, numbered};
ghost use Rattle.filer_client.specs.Exchange.{request_at};
ghost use Rattle.filing_world.specs.Step.{takes, Hears, heard_by};
ghost use Rattle.filing_world.specs.Headline.{states_of};
ghost use Rattle.http_messages.specs.Posting.{IsTarget};
ghost use Rattle.outbox_core.specs.OutboxParts.{HasEntries};
ghost use Rattle.outbox_core.specs.Entries.{opened};
ghost use Rattle.table_rows.specs.declared.fault.StoreFault.TheVariants.{Store as Refused};
ghost use Rattle.schedule.specs.OutboxListed.{listed};
ghost use Rattle.schedule.specs.OutboxEnd.{KeepsSurely, KeepsIn, is_up_in, is_taken_in, IfOpen, IfUp};
ghost use Rattle.schedule.specs.Outboxes.{up_with, after_answer, why_unheard, state_or, entries_after};

use crate::ends::faithful::Faithful;
use crate::ends::honest::Honest;
use crate::ends::keys::copy_key;
use database_places::Drawer;
use filer_client::{ExchangeFault, hand_over, request_bytes};
use http_wire::{MemoryReader, ReplyFault};
use key_string::KeyText;
use outbox_core::{Outbox, PutFault, State, StoreFault, TakeFault};
use outbox_process::OutboxProcess;
use std::alloc::Global;

/// A call on an outbox. It is below the tasks: a task prints and dials, and an exchange of a world may end anywhere.
pub(crate) trait Call {
    /// What the call answers, unless it is refused.
    type Answer;

    // Whether it may be made.
    ghost may_be_made: { Self → Type 0 } = { λ _. Unit {0} };

    // Whether this outbox may answer so.
    ghost answers: { Self → Ours → Self.Answer → Type 0 };

    // Whether it may be refused as `Store`, if the database refused a call up to then, or did not.
    ghost may_be_refused: { Self → Bool → Type 0 } = { λ _ _. Unit {0} };

    // The entries after an answer, by those before it.
    ghost leaves: { Self → List Item → Self.Answer → List Item };

    /// Makes the call.
    fn on<S: Faithful>(
        self,
        alloc: Global,
        outbox: &mut Outbox<S>,
    ) -> Result<Self::Answer, StoreFault>
        requires { may_be_made self }
        ensures answer { (entries : List Item) → HasEntries S.Store outbox.old entries
            → IfOk result (answers self (up_with outbox.old.filer entries)) }
        ensures rows { (entries : List Item) → HasEntries S.Store outbox.old entries
            → HasEntries S.Store outbox.new (after_answer result entries (leaves self entries)) }
        ensures refused { result ≡ Err Refused → may_be_refused self outbox.new.has_failed }
        ensures filer { outbox.new.filer ≡ outbox.old.filer };
}

/// Makes a call on the outbox of a process. Answers `Store` if the process is closed.
fn ask_process<D: Honest, C: Call + Drop>(
    alloc: Global,
    process: &mut OutboxProcess<D, Drawer<D>>,
    call: C,
) -> Result<C::Answer, StoreFault>
    requires { C.may_be_made call }
    ensures answer { (filer : List ℕ) (entries : List Item) → KeepsSurely process.old filer entries
        → IfOk result (C.answers call (up_with filer entries)) }
    ensures kept { (filer : List ℕ) (entries : List Item) → KeepsSurely process.old filer entries
        → KeepsSurely process.new filer (after_answer result entries (C.leaves call entries)) }
    ensures up { is_some process.new.outbox ≡ is_some process.old.outbox }
    ensures down { is_some process.old.outbox ≡ false → result ≡ Err StoreFault.Store }
    ensures refused { result ≡ Err StoreFault.Store → IfOpen process.new.outbox (C.may_be_refused call) }
{
    match process.outbox_mut() {
        Some(outbox) => call.on(alloc, outbox),
        None => Err(StoreFault::Store),
    }
}

/// Makes a call on the outbox of a process. Answers `Store` if the process is closed, or a fault took it.
pub(crate) fn ask<D: Honest, C: Call + Drop>(
    alloc: Global,
    process: &mut Option<OutboxProcess<D, Drawer<D>>>,
    call: C,
) -> Result<C::Answer, StoreFault>
    requires { C.may_be_made call }
    ensures answer { (filer : List ℕ) (entries : List Item) → KeepsIn process.old filer entries
        → IfOk result (C.answers call (up_with filer entries)) }
    ensures kept { (filer : List ℕ) (entries : List Item) → KeepsIn process.old filer entries
        → KeepsIn process.new filer (after_answer result entries (C.leaves call entries)) }
    ensures up { is_up_in process.new ≡ is_up_in process.old }
    ensures stays { is_taken_in process.new ≡ is_taken_in process.old }
    ensures down { is_up_in process.old ≡ false → result ≡ Err StoreFault.Store }
    ensures refused { result ≡ Err StoreFault.Store → IfUp process.new (C.may_be_refused call) }
{
    match process {
        Some(process) => ask_process(alloc, process, call),
        None => Err(StoreFault::Store),
    }
}

/// Puts copies of a key and a body into an outbox, to replace the filing of this number, if one is given. Answers
/// whether they were taken: not if the body is too long or the key is used.
#[derive(Drop)]
pub(crate) struct Put<'a> {
    pub(crate) key: &'a KeyText,
    pub(crate) target: Option<u64>,
    pub(crate) body: &'a [u8],
}

impl Call for Put<'_> {
    type Answer = bool;

    ghost may_be_made = { λ put. IsTarget put.target };

    ghost answers = { λ put box is_taken. is_taken ≡ takes box (opened put.key.now put.target put.body.now) };

    ghost leaves = { λ put entries is_taken.
        if is_taken then entries ++ opened put.key.now put.target put.body.now ∷ [] else entries };

    fn on<S: Faithful>(self, alloc: Global, outbox: &mut Outbox<S>) -> Result<bool, StoreFault> {
        let key = copy_key(alloc, self.key)?;
        let body = Vec::from_slice(alloc, self.body)?;
        match outbox.put(key, self.target, body) {
            Ok(_id) => Ok(true),
            Err(PutFault::TooLarge) => Ok(false),
            Err(PutFault::KeyUsed { .. }) => Ok(false),
            Err(PutFault::Memory) => Err(StoreFault::Memory),
            Err(PutFault::Store) => Err(StoreFault::Store),
        }
    }
}

/// Makes the bytes of the request of the entry of this number, whatever its state, if there is such an entry.
#[derive(Drop)]
pub(crate) struct WriteRequest {
    pub(crate) number: u64,
}

impl Call for WriteRequest {
    type Answer = Option<Vec<u8>>;

    ghost answers = { λ call box text.
        option_map (λ t. t.items) text ≡ request_at box.filer box.entries call.number };

    ghost leaves = { λ _ entries _. entries };

    fn on<S: Faithful>(
        self,
        alloc: Global,
        outbox: &mut Outbox<S>,
    ) -> Result<Option<Vec<u8>>, StoreFault> {
        match request_bytes(alloc, outbox, self.number) {
            Ok(text) => Ok(Some(text)),
            Err(TakeFault::NoEntry) => Ok(None),
            Err(TakeFault::Memory) => Err(StoreFault::Memory),
            Err(TakeFault::Store) => Err(StoreFault::Store),
        }
    }
}

/// Why a reply was not taken, or nothing if the bytes give no reply.
fn why_unheard(fault: ExchangeFault) -> Option<StoreFault>
    ensures { result ≡ why_unheard fault }
{
    match fault {
        ExchangeFault::Reply(ReplyFault::Memory) => Some(StoreFault::Memory),
        ExchangeFault::Reply(_) => None,
        ExchangeFault::Take(TakeFault::Memory) => Some(StoreFault::Memory),
        ExchangeFault::Take(_) | ExchangeFault::Write { .. } => Some(StoreFault::Store),
    }
}

/// Reads these bytes as the reply to the entry of this number, and answers the state to which the entry came, or `None`
/// if the bytes give no reply.
#[derive(Drop)]
pub(crate) struct HearReply<'a> {
    pub(crate) number: u64,
    pub(crate) bytes: &'a [u8],
}

impl Call for HearReply<'_> {
    type Answer = Option<State>;

    ghost answers = { λ call box to.
        (what : Item) → numbered box.entries call.number ≡ Some what
        → (heard : Option ReplyParts) × Hears call.bytes.now No heard
        × (state_or what.state to ≡ heard_by what.state heard) };

    ghost leaves = { λ call entries to. entries_after entries call.number to };

    fn on<S: Faithful>(
        self,
        alloc: Global,
        outbox: &mut Outbox<S>,
    ) -> Result<Option<State>, StoreFault> {
        let mut reader = MemoryReader::new(self.bytes);
        match hand_over(alloc, &mut reader, outbox, self.number) {
            Ok(state) => Ok(Some(state)),
            Err(fault) => match why_unheard(fault) {
                Some(why) => Err(why),
                None => Ok(None),
            },
        }
    }
}

/// Lists the number and the state of each entry, in the order of the numbers.
#[derive(Drop)]
pub(crate) struct ListStates;

impl Call for ListStates {
    type Answer = Vec<(u64, State)>;

    ghost answers = { λ _ box states.
        (number : ℕ) → map (listed number) states.items ≡ states_of number 1 box.entries };

    ghost may_be_refused = { λ _ failed. IsTrue failed };

    ghost leaves = { λ _ entries _. entries };

    fn on<S: Faithful>(
        self,
        _alloc: Global,
        outbox: &mut Outbox<S>,
    ) -> Result<Vec<(u64, State)>, StoreFault> {
        outbox.states()
    }
}
