//! The world: the intake, the outboxes, and what was sent and written so far.

ghost use Rattle.std.specs.Prelude.{◌≡◌, ◌≢◌, ◌≤◌, ◌^◌, ◌++◌, ◌∷◌, ◌⊎◌, [], ℕ, map, true, false, Some, None, Err};
ghost use Rattle.std.specs.Prelude.{IsSome, IfOk, IfErr, IfSome, OnOk, ◌↔◌};
ghost use Rattle.key_string.specs.Filer.{is_filer};
ghost use Rattle.event_script.specs.Events.{view_event, HasTarget};
ghost use Rattle.filing_model.specs.Request.{firsts};
ghost use Rattle.filing_model.specs.Register.{register};
ghost use Rattle.filing_world.specs.World.{new_outbox};
ghost use Rattle.filing_world.specs.Step.{Step, CannotPlay, IsAway};
ghost use Rattle.filing_world.specs.Invariant.{AllOwn, Keeps};
ghost use Rattle.filing_world.specs.Headline.{AreFilers, start, states, confirmed};
ghost use Rattle.sqlite.specs.Files.{over_files};
ghost use Rattle.intake_core.specs.Held.{HoldsRequests as Lends};
ghost use Rattle.schedule.specs.Filers.{boxes, is_any_taken, takens};
ghost use Rattle.schedule.specs.Played.{world_of, HasSleeper, IsLent, IsSame, Tells};
ghost use Rattle.schedule.specs.Playing.{AsksOutbox, Closes, Plays};
ghost use Rattle.schedule.specs.Listed.{view_listed, are_up};

use crate::deliver::deliver;
use crate::element::outbox_at;
use crate::ends::fault::EndFault;
use crate::ends::honest::Honest;
use crate::fault::{Fault, Unplayed};
use crate::filer::Filer;
use crate::hand::hand;
use crate::listing::{all_states, confirmed_of};
use crate::lists::{Output, Sent};
use crate::put::put;
use crate::restart::restart_outbox;
use crate::send::{send, send_bytes};
use crate::server::Server;
use event_script::Event;
use intake_core::{Intake, Unavailable};
use outbox_core::{Outbox, State, StoreFault};
use register_store::{Completed, Registered};
use sqlite::FileStore;
use std::alloc::Global;
use std::marker::Model;

/// An intake, the outboxes of its filers, and everything that was sent or written so far. The register and the
/// outboxes lie in tables, on disks of the type `D`.
pub struct World<D: Honest> {
    alloc: Global,
    server: Server<D>,
    filers: Vec<Filer<D>>,
    sent: Vec<Sent>,
    outputs: Vec<Output>,
    events: u64,
    fault: Option<Fault>,
}

impl<D: Honest> Model for World<D> {
    ghost use Rattle.std.specs.Prelude.{◌≡◌, ◌||◌, None};
    ghost use Rattle.filing_world.specs.Invariant.{Keeps};
    ghost use Rattle.schedule.specs.Filers.{is_any_taken, sleepers};
    ghost use Rattle.schedule.specs.Played.{Played, world_of};

    ghost Value = { Played };

    ghost view = { λ w. record {
      world = world_of w.server w.sent.items w.outputs.items w.filers.items;
      events = w.events;
      fault = w.fault;
      asleep = sleepers w.filers.items;
      taken = w.server.taken || is_any_taken w.filers.items;
    } };

    ghost invariant = { λ w. w.fault ≡ None → Keeps (world_of w.server w.sent.items w.outputs.items w.filers.items) };
}

impl<D: Honest> Drop for World<D> {
    fn drop(self) {
        let World {
            alloc: _,
            server: _,
            filers: _,
            sent: _,
            outputs: _,
            events: _,
            fault: _,
        } = self;
    }
}

/// Plays one event on these parts.
fn play_on<D: Honest>(
    alloc: Global,
    server: &mut Server<D>,
    filers: &mut Vec<Filer<D>>,
    sent: &mut Vec<Sent>,
    outputs: &mut Vec<Output>,
    event: &Event,
) -> Result<(), Unplayed>
    requires { HasTarget (view_event event.now) }
    ensures step { OnOk result (AllOwn (boxes filers.old.items) sent.old.items
        → Step (world_of server.old sent.old.items outputs.old.items filers.old.items) (view_event event.now)
        (world_of server.new sent.new.items outputs.new.items filers.new.items)) }
    ensures stays { OnOk result ((server.new.taken ≡ server.old.taken)
        × (takens filers.new.items ≡ takens filers.old.items)) }
    ensures no_such { result ≡ Err Unplayed.NoSuch
        → CannotPlay (world_of server.old sent.old.items outputs.old.items filers.old.items) (view_event event.now) }
    ensures store { result ≡ Err (Unplayed.Refused EndFault.Store)
        → Keeps (world_of server.old sent.old.items outputs.old.items filers.old.items)
        → AsksOutbox (world_of server.old sent.old.items outputs.old.items filers.old.items) (view_event event.now) }
    ensures reopen { result ≡ Err (Unplayed.Refused EndFault.Reopen) → Closes (view_event event.now)
        × (¬ CannotPlay (world_of server.old sent.old.items outputs.old.items filers.old.items)
        (view_event event.now)) }
{
    match event {
        Event::Put {
            outbox,
            key,
            target,
            body,
        } => put(filers, *outbox, key, *target, body),
        Event::Send { outbox, entry } => send(filers, sent, *outbox, *entry),
        Event::Stranger { bytes } => Ok(send_bytes(alloc, sent, bytes)?),
        Event::Deliver { item, bytes, crash } => {
            deliver(server, sent.as_slice(), outputs, *item, *bytes, *crash)
        }
        Event::Hand {
            output,
            bytes,
            crash,
        } => hand(
            filers,
            sent.as_slice(),
            outputs.as_slice(),
            *output,
            *bytes,
            *crash,
        ),
        Event::RestartServer => Ok(server.restart()?),
        Event::RestartOutbox { outbox } => restart_outbox(filers, *outbox),
    }
}

/// Appends an empty outbox of this filer code.
fn append_outbox<D: Honest>(
    alloc: Global,
    list: &mut Vec<Filer<D>>,
    code: &str,
) -> Result<(), EndFault>
    requires { is_filer code.now ≡ true }
    ensures appended { OnOk result (boxes list.new.items ≡ boxes list.old.items ++ new_outbox code.now ∷ []) }
    ensures there { is_any_taken list.old.items ≡ false → OnOk result (is_any_taken list.new.items ≡ false) }
{
    list.reserve(1)?;
    list.push_reserved(Filer::new(alloc, code)?);
    Ok(())
}

/// An empty outbox for each of these filer codes, in order.
fn outboxes<D: Honest>(alloc: Global, filers: &[&str]) -> Result<Vec<Filer<D>>, EndFault>
    requires { AreFilers (map (λ f. f.now) filers.now) }
    ensures outboxes { IfOk result (λ list. boxes list.items ≡ map new_outbox (map (λ f. f.now) filers.now)) }
    ensures there { IfOk result (λ list. is_any_taken list.items ≡ false) }
{
    let mut list = Vec::new(alloc);
    for code in filers {
        append_outbox(alloc, &mut list, code)?;
    }
    Ok(list)
}

/// The world at first.
fn start<D: Honest>(alloc: Global, filers: &[&str], limit: u64) -> Result<World<D>, EndFault>
    requires filers { AreFilers (map (λ f. f.now) filers.now) }
    requires limit { limit ≤ 2 ^ 62 }
    ensures start { IfOk result (λ w. w.world ≡ start (map (λ f. f.now) filers.now) limit) }
    ensures fresh { IfOk result (λ w. (w.events ≡ 0) × (w.fault ≡ None) × (w.taken ≡ false)) }
{
    let server = Server::new(alloc, limit)?;
    let filers = outboxes(alloc, filers)?;
    let sent = Vec::new(alloc);
    let outputs = Vec::new(alloc);
    Ok(World {
        alloc,
        server,
        filers,
        sent,
        outputs,
        events: 0,
        fault: None,
    })
}

impl<D: Honest> World<D> {
    /// A world with an empty register, which keeps at most `limit` keys, and an empty outbox for each of these
    /// filer codes. All ends are up.
    pub fn new(alloc: Global, filers: &[&str], limit: u64) -> Result<World<D>, Fault>
        requires filers { AreFilers (map (λ f. f.now) filers.now) }
        requires limit { limit ≤ 2 ^ 62 }
        ensures start { IfOk result (λ w. w.world ≡ start (map (λ f. f.now) filers.now) limit) }
        ensures fresh { IfOk result (λ w. (w.events ≡ 0) × (w.fault ≡ None) × (w.taken ≡ false)) }
        ensures making { IfErr result (Tells 0) }
        ensures other { (n : ℕ) → result ≢ Err (Fault.NoSuch n) }
    {
        match start(alloc, filers, limit) {
            Ok(world) => Ok(world),
            Err(cause) => Err(Fault::of_refusal(cause, 0)),
        }
    }

    /// Plays the next event. A fault names the number of the event, and each later call answers the same fault.
    pub fn play(&mut self, event: &Event) -> Result<(), Fault>
        requires { HasTarget (view_event event.now) }
        ensures { Plays self.old self.new (view_event event.now) result }
    {
        if let Some(fault) = self.fault {
            return Err(fault);
        }
        let number = self.events.saturating_add(1);
        self.events = number;
        let played = play_on(
            self.alloc,
            &mut self.server,
            &mut self.filers,
            &mut self.sent,
            &mut self.outputs,
            event,
        );
        match played {
            Ok(()) => Ok(()),
            Err(why) => {
                let fault = Fault::of(why, number);
                self.fault = Some(fault);
                Err(fault)
            }
        }
    }

    /// The registered requests under their numbers, ascending. Answers `Down` if the intake is down, and after `Store`;
    /// never answers `Full`.
    pub fn register(&mut self) -> Result<Vec<Registered>, Unavailable>
        ensures list { IfOk result (λ rows. rows.items ≡ register self.old.world.done) }
        ensures down { self.old.world.up ≡ false → result ≡ Err Unavailable.Down }
        ensures room { (k : ℕ) → result ≢ Err (Unavailable.Full k) }
        ensures same { self.new ≡ self.old }
    {
        self.server.register()
    }

    /// Every entry of every outbox, by the number of the outbox and its own, with its state, ascending. Answers `Store`
    /// if an outbox is down, and otherwise only if the database of one refused.
    pub fn states(&mut self) -> Result<Vec<(u64, u64, State)>, StoreFault>
        ensures list { IfOk result (λ list. map view_listed list.items ≡ states self.old.world) }
        ensures down { are_up self.old.world.outboxes ≡ false → result ≡ Err StoreFault.Store }
        ensures store { result ≡ Err StoreFault.Store
            → (are_up self.old.world.outboxes ≡ false) ⊎ HasSleeper self.new.asleep }
        ensures same { IsSame self.old self.new }
    {
        all_states(self.alloc, &mut self.filers)
    }

    /// The confirmed entries of every outbox, with their numbers in the register. Answers `Store` if an outbox is down,
    /// and otherwise only if the database of one refused.
    pub fn confirmed(&mut self) -> Result<Vec<(u64, u64, u64)>, StoreFault>
        ensures list { IfOk result (λ list. list.items ≡ confirmed self.old.world) }
        ensures down { are_up self.old.world.outboxes ≡ false → result ≡ Err StoreFault.Store }
        ensures store { result ≡ Err StoreFault.Store
            → (are_up self.old.world.outboxes ≡ false) ⊎ HasSleeper self.new.asleep }
        ensures same { IsSame self.old self.new }
    {
        let states = all_states(self.alloc, &mut self.filers)?;
        match confirmed_of(self.alloc, states.as_slice()) {
            Ok(list) => Ok(list),
            Err(_) => Err(StoreFault::Memory),
        }
    }

    /// The requests that were completed so far, in order.
    pub fn done(&self) -> &[Completed]
        ensures { result.now ≡ self.now.world.done }
    {
        self.server.done()
    }

    /// The intake that the events run on, if it is up.
    pub fn intake(&self) -> Option<&Intake<FileStore<D>>>
        ensures lent { IsSome result ↔ (self.now.world.up ≡ true) }
        ensures keeps { IfSome result (λ intake. Lends over_files intake.now (firsts self.now.world.done)) }
    {
        self.server.intake()
    }

    /// The outbox of this number that the events run on, if there is one and it is up.
    pub fn outbox(&self, outbox: u64) -> Option<&Outbox<FileStore<D>>>
        ensures lent { IfSome result (λ it. IsLent self.now.world.outboxes outbox it.now) }
        ensures none { result ≡ None → IsAway self.now.world.outboxes outbox }
    {
        outbox_at(self.filers.as_slice(), outbox)
    }

    /// What was sent so far, in order.
    pub fn sent(&self) -> &[Sent]
        ensures { result.now ≡ self.now.world.sent }
    {
        self.sent.as_slice()
    }

    /// What the deliveries left so far, in order.
    pub fn outputs(&self) -> &[Output]
        ensures { result.now ≡ self.now.world.outputs }
    {
        self.outputs.as_slice()
    }
}
