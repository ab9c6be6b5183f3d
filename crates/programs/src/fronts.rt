//! Fronts between the outboxes and the intake, and that they change nothing. What may live here: what a front may give
//! back, how a connection that it keeps open happens, and laws over every list of things that programs do behind
//! fronts. There is no code.

ghost use Rattle.std.specs.Prelude.{◌≡◌, ◌≢◌, ◌<◌, ◌≤◌, ◌^◌, ℕ, Bool, List, [], take, Option, Some, None, false, codes};
ghost use Rattle.serde_json.specs.Data.{Data};
ghost use Rattle.xbrl_report.specs.Findings.{tree};
ghost use Rattle.http_messages.specs.Reply.{ReplyParts};
ghost use Rattle.filing_model.specs.Answer.{answer};
ghost use Rattle.filing_model.specs.Outbox.{State, Open, moved, request_of, refuses};
ghost use Rattle.filing_model.specs.Reply.{reply_of};
ghost use Rattle.filing_model.specs.Request.{Request};
ghost use Rattle.filing_model.specs.Stopping.{Crash};
ghost use Rattle.filing_model.specs.declared.served.Mark.{Mark};
ghost use Rattle.filing_world.specs.Headline.{AreFilers};
ghost use Rattle.filing_world.specs.Schedules.{IsGood};
ghost use Rattle.filing_world.specs.World.{numbered};
ghost use Rattle.outbox_tables.specs.Entries.{Contents};
ghost use Rattle.filer_client.specs.Exchange.{IsOpenRequest, Hears};
ghost use Rattle.gateway_server.specs.Connections.{Connection};
ghost use Rattle.programs.specs.Deliveries.{Delivery};
ghost use Rattle.programs.specs.Happenings.{Situation, at_first, IsServing, IsKilling, AreRegistered};
ghost use Rattle.programs.specs.Fronts.{Passing, HappenBehind, IsKeptWithout, IsReachedBehind, IsFront};
ghost use Rattle.programs.specs.Fronts.{IsHearingThrough, IsRewritten, IsGivenBack, passed_once, MayConfirm};
ghost use Rattle.programs.specs.Kept.{HappensByPieces, IsKilledByPieces};

/// Whatever the programs do behind fronts, which may write anything to the intake and give an outbox back what the
/// intake answered to its request, or what settles nothing: happenings without a front keep the same requests and the
/// same outboxes. So events lead to such a world, the headline holds of it, and each entry that an outbox counts as
/// confirmed is in the register exactly once, with its bytes, under its number.
pub fn any_fronts()
    ensures without { (filers : List (List ℕ)) (limit : ℕ) (passings : List Passing) (situation : Situation)
        → AreFilers filers → limit ≤ 2 ^ 62 → HappenBehind limit (at_first filers) passings situation
        → IsKeptWithout filers limit situation }
    ensures reached { (filers : List (List ℕ)) (limit : ℕ) (passings : List Passing) (situation : Situation)
        → AreFilers filers → limit ≤ 2 ^ 62 → HappenBehind limit (at_first filers) passings situation
        → IsReachedBehind filers limit situation }
    ensures registered { (filers : List (List ℕ)) (limit : ℕ) (passings : List Passing) (situation : Situation)
        → AreFilers filers → limit ≤ 2 ^ 62 → HappenBehind limit (at_first filers) passings situation
        → AreRegistered situation }
{}

/// A connection that a front kept open was served, with messages of many filers one behind another, or the intake was
/// killed as it served it. The same is kept if each of its pieces is written and served by itself; and what was written
/// on it are the answers to these, joined.
pub fn a_kept_connection_happens_by_pieces()
    ensures served { (limit : ℕ) (old new : Situation) (delivery : Delivery) (connection : Connection)
        → IsServing limit old delivery connection new → HappensByPieces limit old connection new }
    ensures killed { (limit : ℕ) (old new : Situation) (delivery : Delivery) (crash : Crash) (marks : List Mark)
        (out : List ℕ) → (is : IsKilling limit old delivery crash marks out new)
        → IsKilledByPieces limit old (take delivery.given is.from.bytes) crash marks out new }
{}

/// The bytes that an exchange reads are heard through a front, if their reply is one that the front may give back: the
/// entry comes to the state that the exchange answers.
pub fn an_exchange_is_heard_through_a_front()
    ensures { (old : Situation) (outbox id : ℕ) (contents : Contents) (text bytes : List ℕ) (left : Option (List ℕ))
        (to : State) → numbered old.outboxes outbox ≡ Some contents
        → (request : IsOpenRequest contents.filer contents.entries id text)
        → (hears : Hears (Some bytes) left (λ reply. to ≡ moved Open reply))
        → IsFront old (request_of contents.filer request.entry) hears.0
        → (new : Situation) × IsHearingThrough old outbox id hears.1.0 to new }
{}

/// A report in which nothing is found is confirmed behind a front, however the front spells the request for the intake
/// and the intake's answer for the outbox, and whether it keeps its connection open or closes it.
pub fn confirms_behind_a_front()
    ensures { (limit : ℕ) (r : Request) (keeps : Bool) (rewritten back : List ℕ) → 0 < limit → IsGood r
        → IsRewritten r rewritten keeps → IsGivenBack (reply_of (answer [] r)) back
        → MayConfirm limit r (passed_once r keeps rewritten back) }
{}

/// What a front may make up itself: a reply with a status other than 201, 400 and 422; one whose content is no JSON;
/// and one with a status other than 201 whose content has neither `refused` nor `key-reused` as its status or reason.
pub fn what_settles_nothing()
    ensures status { (reply : ReplyParts) → reply.status ≢ 201 → reply.status ≢ 400 → reply.status ≢ 422
        → moved Open reply ≡ Open }
    ensures no_json { (reply : ReplyParts) → tree reply.content ≡ None → moved Open reply ≡ Open }
    ensures words { (reply : ReplyParts) (d : Data) → reply.status ≢ 201 → tree reply.content ≡ Some d
        → refuses (codes "refused") d ≡ false → refuses (codes "key-reused") d ≡ false
        → moved Open reply ≡ Open }
{}
