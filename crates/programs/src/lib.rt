//! What the programs do, as their contracts say it, and that the headline holds of what they keep. What may live here:
//! what served connections are in the world; what each connection of a port gets (`connections`); what may happen at
//! the programs, also behind fronts, which may give back other bytes (`fronts`); and laws over every list of such
//! things. There is no code but for functions whose contracts are laws.
#![tactic(auto)]

pub mod connections;
pub mod fronts;

ghost use Rattle.std.specs.Prelude.{◌≡◌, ◌≤◌, ◌^◌, ℕ, List, [], Option, Some, true};
ghost use Rattle.filing_model.specs.Outbox.{State, Open, moved};
ghost use Rattle.filing_model.specs.Request.{Request, firsts};
ghost use Rattle.filing_model.specs.Serving.{keeping};
ghost use Rattle.filing_world.specs.World.{World, Outbox, Event};
ghost use Rattle.filing_world.specs.Headline.{AreFilers, start, Holds};
ghost use Rattle.filer_client.specs.Exchange.{IsOpenRequest, Hears};
ghost use Rattle.gateway_server.specs.Connections.{Connection, ServeInTurn};
ghost use Rattle.intake_process.specs.Turns.{Turn, all_in, served_in, AreTurnedAway};
ghost use Rattle.programs.specs.Deliveries.{Delivery, AreOf, GoesOnTo};
ghost use Rattle.programs.specs.Exchanged.{IsBox, IsSent, ComesOf, IsMoved};
ghost use Rattle.programs.specs.Happenings.{Situation, Happening, at_first, Happen, IsReached, AreRegistered};
ghost use Rattle.programs.specs.Happenings.{TurnsHappen};
ghost use Rattle.filing_world.specs.Step.{Run};

/// Connections that were served in turn after the requests which a world has completed are deliveries: each is a step
/// of the world, and what is kept then are the first of the requests that the new world has completed. So more
/// connections go on from there, and if events led to the old world, the headline holds of the new one.
pub fn connections_are_deliveries()
    ensures steps { (old : World) (connections : List Connection) (deliveries : List Delivery) (after : List Request)
        → old.up ≡ true → ServeInTurn (keeping old.limit [] (firsts old.done) after) connections
        → AreOf old.sent connections deliveries → (new : World)
        × GoesOnTo old connections deliveries after new }
    ensures holds { (filers : List (List ℕ)) (limit : ℕ) (events : List Event) (old new : World)
        (connections : List Connection) (deliveries : List Delivery) (after : List Request) → AreFilers filers
        → limit ≤ 2 ^ 62 → Run (start filers limit) events old → GoesOnTo old connections deliveries after new
        → Holds new }
{}

/// What an exchange writes is sent, and the reply that it reads is handed to its entry, whatever came in between at
/// other ends: the entry is in the state that the exchange answers.
pub fn an_exchange_is_sent_and_handed()
    ensures sent { (old : World) (outbox id : ℕ) (box : Outbox) (text : List ℕ) → IsBox old outbox box
        → IsOpenRequest box.filer box.entries id text → (new : World) × IsSent old outbox id text new }
    ensures handed { (old : World) (outbox id output given : ℕ) (box : Outbox) (text bytes : List ℕ)
        (left : Option (List ℕ)) (to : State) → IsBox old outbox box
        → IsOpenRequest box.filer box.entries id text → ComesOf old outbox id output given bytes
        → Hears (Some bytes) left (λ reply. to ≡ moved Open reply)
        → (new : World) × IsMoved old outbox id output box to new }
{}

/// Connections that a run of `intake serve` answered happened one after another: those that were served in turn, and
/// those that were turned away between them.
pub fn turns_happen()
    ensures { (limit keys : ℕ) (old : Situation) (turns : List Turn) (deliveries : List Delivery)
        (after : List Request) → keys ≤ limit
        → ServeInTurn (keeping keys [] old.requests after) (served_in turns) → AreTurnedAway turns
        → AreOf old.sent (all_in turns) deliveries
        → (new : Situation) × TurnsHappen limit old deliveries turns after new }
{}

/// Whatever the programs do, one thing after another and each as its contract says: events lead to a world that is kept
/// so, the headline holds of it, and each entry that an outbox counts as confirmed is in the register exactly once,
/// with its bytes, under its number.
pub fn any_programs()
    ensures reached { (filers : List (List ℕ)) (limit : ℕ) (happenings : List Happening) (situation : Situation)
        → AreFilers filers → limit ≤ 2 ^ 62 → Happen limit (at_first filers) happenings situation
        → IsReached filers limit situation }
    ensures registered { (filers : List (List ℕ)) (limit : ℕ) (happenings : List Happening) (situation : Situation)
        → AreFilers filers → limit ≤ 2 ^ 62 → Happen limit (at_first filers) happenings situation
        → AreRegistered situation }
{}
