//! What holds of every list of completed requests, whatever it holds and however it goes on. What may
//! live here: functions that do nothing, each with a law about the definitions as its contract. The
//! code that decides requests has contracts by the same definitions.

ghost use Rattle.std.specs.Prelude.{◌≡◌, ◌≢◌, ◌↔◌, ℕ, ◌^◌, ◌<◌, ◌≤◌, Bool, true, List, [], ◌++◌, length, filter, codes};
ghost use Rattle.std.specs.Prelude.{◌∷◌, Option, Some};
ghost use Rattle.http_messages.specs.declared.refusal.ConnFault.{ConnFault};
ghost use Rattle.http_messages.specs.declared.reply.Kind.TheVariants.{Problem};
ghost use Rattle.http_messages.specs.Head.{closes};
ghost use Rattle.http_messages.specs.Message.{Arrival, Ending};
ghost use Rattle.http_messages.specs.Reply.{render};
ghost use Rattle.http_messages.specs.Request.{Request as Message};
ghost use Rattle.http_messages.specs.Response.{IsReadable};
ghost use Rattle.filing_model.specs.declared.served.Ended.{Ended};
ghost use Rattle.filing_model.specs.declared.served.Ended.TheVariants.{Fault};
ghost use Rattle.filing_model.specs.declared.served.Mark.{Mark};
ghost use Rattle.filing_model.specs.declared.served.Style.{Style};
ghost use Rattle.filing_model.specs.declared.served.Style.TheVariants.{Old};
ghost use Rattle.filing_model.specs.Request.{Request, has_key, firsts};
ghost use Rattle.filing_model.specs.Register.{is_amendment_of, register};
ghost use Rattle.filing_model.specs.Answer.{answer};
ghost use Rattle.filing_model.specs.Answer.Answer.{Registered, KeyReused};
ghost use Rattle.filing_model.specs.Outbox.{Open, Confirmed, Clashed, moved};
ghost use Rattle.filing_model.specs.Style.{style_of};
ghost use Rattle.filing_model.specs.Reply.{reply_as, unavailable};
ghost use Rattle.filing_model.specs.Serving.{keeping, Serves};
ghost use Rattle.filing_model.specs.Stopping.{Crash, No, Before, After, IsEndOf, IsEndOrStopOf, ServesUntil};
ghost use Rattle.filing_model.specs.Stopping.{StopsOrServes};
ghost use Rattle.filing_model.specs.Steps.{Step, StepsFit, all_completed, steps_on, text_of_step, text_on};
ghost use Rattle.filing_model.specs.Text.{MarkFits, MarksFit, completed, reply_with, reply_text_with, text_with};
ghost use Rattle.filing_model.specs.Laws.{IsAnswered, IsRegisterOf, ListsTheFilers, RepeatChangesNothing};
ghost use Rattle.filing_model.specs.Laws.{RegisterGrows, ReplaceTheirOwn, RepeatGetsTheFirst, StaysRegistered};
ghost use Rattle.filing_model.specs.Laws.{StopAlike};

/// The register is the valid ones among the first request of each filer and key, numbered 1, 2, ..
/// in the order in which they came, without a gap.
pub fn register_is_the_valid_firsts()
    ensures { (requests : List Request) → IsRegisterOf requests (register requests) }
{}

/// A request whose filer and key came before adds nothing: the first requests and the register are
/// what they were, whether its body is the same or another.
pub fn repeat_changes_nothing()
    ensures { (requests : List Request) (r : Request) → has_key requests r ≡ true → RepeatChangesNothing requests r }
{}

/// The register only grows: a filing stays at its place with its number and its request, and new
/// ones come behind it.
pub fn register_grows()
    ensures { (requests more : List Request) → RegisterGrows requests more }
{}

/// A filing is replaced at most once: no two filings of the register replace one number.
pub fn replaced_at_most_once()
    ensures { (requests : List Request) (n : ℕ) → length (filter (is_amendment_of n) (register requests)) ≤ 1 }
{}

/// A filing is replaced by its own filer alone, and later: what a filing of the register replaces is one before it,
/// of the same filer.
pub fn replaced_by_its_filer()
    ensures { (requests : List Request) → ReplaceTheirOwn (register requests) }
{}

/// A filer's list has the filer's filings under their numbers, each of them once, and nothing else; if one filing is
/// asked for, it has that one, if it is the filer's.
pub fn a_list_has_the_filers_filings()
    ensures { (requests : List Request) (filer : List ℕ) (asked : Option ℕ)
        → ListsTheFilers filer asked (register requests) }
{}

/// The first answer is kept: whatever comes between and after, the same request gets the same status and the same
/// content again.
pub fn repeat_gets_the_first()
    ensures { (requests : List Request) (r : Request) (more : List Request) → RepeatGetsTheFirst requests r more }
{}

/// A request that was answered as registered is in the register exactly once, under the number of the answer, for good.
pub fn registered_for_good()
    ensures { (requests : List Request) (r : Request) (number : ℕ) (repeat : Bool)
        → answer requests r ≡ Registered number repeat → StaysRegistered requests r number }
{}

/// Each reply to a request that files is one that a client reads: a final status with a phrase, and a
/// content of 1 to 8,388,608 bytes, in either style. So is the reply if the request could not be decided.
pub fn every_reply_is_read()
    ensures answered { (style : Style) (requests : List Request) (r : Request) → length (firsts requests) ≤ 2 ^ 62
        → IsReadable (reply_as style (answer requests r)) }
    ensures undecided { IsReadable unavailable }
{}

/// A number is read as it was written, in either style: the reply with it moves an open entry to this number, and to no
/// other.
pub fn a_number_is_heard_as_told()
    ensures confirms { (style : Style) (m : ℕ) (repeat : Bool) → 1 ≤ m → m < 2 ^ 63
        → moved Open (reply_as style (Registered m repeat)) ≡ Confirmed m }
    ensures exactly { (style : Style) (m n : ℕ) (repeat : Bool) → m < 2 ^ 63
        → moved Open (reply_as style (Registered m repeat)) ≡ Confirmed n → m ≡ n }
{}

/// The reply to a used key marks an open entry as a clash, in either style.
pub fn a_used_key_is_heard()
    ensures { (style : Style) → moved Open (reply_as style KeyReused) ≡ Clashed }
{}

/// A filer's key is answered in the old style exactly if it is that of an old-style request.
pub fn old_requests_are_answered_in_the_old_style()
    ensures { (old_style : List Request) (r : Request) → (style_of old_style r ≡ Old) ↔ (has_key old_style r ≡ true) }
{}

/// What was served of the bytes that were read is what may be served of all that were given, after any
/// requests whose firsts were kept.
pub fn serves_as_the_model_says()
    ensures { (limit : ℕ) (done before after : List Request) (read more : List ℕ) (marks : List Mark) (ended : Ended)
        (out : List ℕ)
        → before ≡ firsts done → IsEndOf read more ended → Serves (keeping limit [] before after) read marks ended out
        → (arrivals : List Arrival)
        × ServesUntil limit done (read ++ more) No arrivals marks
        (Some ended) out × (after ≡ firsts (done ++ completed arrivals marks)) }
{}

/// What was served up to a stop, of the bytes that were read, is what may be served of all that were given. Serving
/// that stopped has no end, and its arrivals are the first ones, up to the one at which it stopped.
pub fn serves_until_as_the_model_says()
    ensures { (limit : ℕ) (done before after : List Request) (read more : List ℕ) (crash : Crash) (marks : List Mark)
        (ended : Option Ended) (out : List ℕ)
        → before ≡ firsts done → IsEndOrStopOf read more ended
        → StopsOrServes (keeping limit [] before after) read crash marks ended out
        → (arrivals : List Arrival) × ServesUntil limit done (read ++ more) crash arrivals marks ended out
        × (after ≡ firsts (done ++ completed arrivals marks)) }
{}

/// A stop at arrival 0 is a stop at the first one, before it is decided or after.
pub fn a_stop_at_0_is_one_at_1()
    ensures before { StopAlike (Before 0) (Before 1) }
    ensures after { StopAlike (After 0) (After 1) }
{}

/// If a connection ended by itself, neither by a fault nor by a stop, each of its arrivals has its
/// mark and its whole text was written. Only a fault leaves less.
pub fn serves_all_without_a_fault()
    ensures { (limit : ℕ) (done : List Request) (bytes : List ℕ) (crash : Crash) (arrivals : List Arrival)
        (marks : List Mark) (ended : Ended) (out : List ℕ)
        → ServesUntil limit done bytes crash arrivals marks (Some ended) out
        → ((fault : ConnFault) → ended ≢ Fault fault)
        → IsAnswered done bytes arrivals marks ended out }
{}

/// The reply to a HEAD has no content (RFC 9110, section 9.3.2), whatever its path and the mark of its arrival. It is a
/// refusal, and has the kind of one.
pub fn head_is_answered_without_content()
    ensures reply { (old_style requests : List Request) (m : Message) → m.head.method ≡ codes "HEAD"
        → (reply_with old_style requests m).content ≡ [] }
    ensures kind { (old_style requests : List Request) (m : Message) → m.head.method ≡ codes "HEAD"
        → (reply_with old_style requests m).kind ≡ Problem }
    ensures written { (limit : ℕ) (old_style requests : List Request) (m : Message) (mark : Mark)
        → m.head.method ≡ codes "HEAD" → MarkFits limit requests (Arrival.Read m) mark
        → reply_text_with old_style requests (Arrival.Read m) mark ≡ render
        (record { status = (reply_with old_style requests m).status; content = []; kind = Problem }) (closes m.head) }
{}

/// A connection that is served alone gets the text of one connection. Its marks fit exactly if those of one connection
/// do, and it completes what they complete.
pub fn a_connection_alone_gets_its_text()
    ensures text { (old_style before : List Request) (i : ℕ) (arrivals : List Arrival) (marks : List Mark)
        → length marks ≡ length arrivals → text_on old_style before i (steps_on i arrivals marks)
        ≡ text_with old_style before arrivals Ending.Closed marks }
    ensures fit { (limit : ℕ) (before : List Request) (i : ℕ) (arrivals : List Arrival) (marks : List Mark)
        → length marks ≡ length arrivals
        → StepsFit limit before (steps_on i arrivals marks) ↔ MarksFit limit before arrivals marks }
    ensures completed { (i : ℕ) (arrivals : List Arrival) (marks : List Mark)
        → all_completed (steps_on i arrivals marks) ≡ completed arrivals marks }
{}

/// One more step writes its own text behind that of its connection, after all requests that were completed before it,
/// and nothing on the others.
pub fn a_step_adds_its_text()
    ensures own { (old_style before : List Request) (steps : List Step) (step : Step)
        → text_on old_style before step.on (steps ++ step ∷ [])
        ≡ text_on old_style before step.on steps ++ text_of_step old_style (before ++ all_completed steps) step }
    ensures others { (old_style before : List Request) (steps : List Step) (step : Step) (i : ℕ) → step.on ≢ i
        → text_on old_style before i (steps ++ step ∷ []) ≡ text_on old_style before i steps }
{}
