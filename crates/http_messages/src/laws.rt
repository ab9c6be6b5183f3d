//! What holds of every request and every reply as they are written. What may live here: functions that
//! do nothing, each with a law about the definitions as its contract. The code that reads and writes
//! messages has contracts by the same definitions.

ghost use Rattle.std.specs.Prelude.{◌≡◌, ◌≤◌, ℕ, Bool, true, List, [], ◌++◌, length, take, Option};
ghost use Rattle.key_string.specs.Filer.{is_filer};
ghost use Rattle.key_string.specs.Key.{IsKey};
ghost use Rattle.http_messages.specs.Head.{max_body_len};
ghost use Rattle.http_messages.specs.Message.{Arrival, Ending, HasArrivals, SpellsRequest};
ghost use Rattle.http_messages.specs.Posting.{IsTarget, render_post, post_request, HoldsAlone};
ghost use Rattle.http_messages.specs.Reply.{ReplyParts, render};
ghost use Rattle.http_messages.specs.ReplyFaults.{IsRefusedReply};
ghost use Rattle.http_messages.specs.Request.{Request};
ghost use Rattle.http_messages.specs.Response.{BeginsReply, SpellsReply, GivesReply, IsReadable};
ghost use Rattle.http_messages.specs.declared.refusal.ReplyFault.{ReplyFault};

/// Bytes have one list of arrivals, and one ending.
pub fn bytes_have_one_list_of_arrivals()
    ensures { (bytes : List ℕ) (arrivals others : List Arrival) (ending other : Ending)
        → HasArrivals bytes arrivals ending
        → HasArrivals bytes others other → (others ≡ arrivals) × (other ≡ ending) }
{}

/// No spelling of a request is the beginning of another's, nor of its own with more behind it.
pub fn request_is_no_front_of_another()
    ensures { (bytes more : List ℕ) (request other : Request) → SpellsRequest bytes request
        → SpellsRequest (bytes ++ more) other → (more ≡ []) × (other ≡ request) }
{}

/// What a filer writes is read as the request that it is made of: a POST to the filer's path, or to that
/// of a filing, with the key and the report.
pub fn post_is_read()
    ensures { (filer : List ℕ) (target : Option ℕ) (key body : List ℕ) → is_filer filer ≡ true → IsTarget target
        → IsKey key → length body ≤ max_body_len
        → SpellsRequest (render_post filer target key body) (post_request filer target key body) }
{}

/// However a filer's request is cut, nothing else is read in it: what comes of it holds no arrival and asks for
/// nothing, or it is the whole request, after which the connection closes.
pub fn cut_post_is_nothing_or_whole()
    ensures { (filer : List ℕ) (target : Option ℕ) (key body : List ℕ) → is_filer filer ≡ true → IsTarget target
        → IsKey key → length body ≤ max_body_len → (n : ℕ) (arrivals : List Arrival) (ending : Ending)
        → HasArrivals (take n (render_post filer target key body)) arrivals ending
        → HoldsAlone (post_request filer target key body) arrivals ending }
{}

/// What the intake writes of a final reply with content is read as this reply.
pub fn reply_is_read()
    ensures { (reply : ReplyParts) (close : Bool) → IsReadable reply → SpellsReply (render reply close) reply }
{}

/// However a reply is cut, no other reply is read in it.
pub fn cut_reply_is_no_other()
    ensures { (reply other : ReplyParts) (close : Bool) (n : ℕ) → IsReadable reply
        → SpellsReply (take n (render reply close)) other → other ≡ reply }
{}

/// No bytes begin with two replies, or with one of two lengths.
pub fn bytes_begin_with_one_reply()
    ensures { (bytes : List ℕ) (reply other : ReplyParts) (n m : ℕ) → BeginsReply bytes reply n
        → BeginsReply bytes other m → (other ≡ reply) × (m ≡ n) }
{}

/// Bytes that give a reply are not refused as one, for any fault.
pub fn given_reply_is_not_refused()
    ensures { (bytes : List ℕ) (reply : ReplyParts) (fault : ReplyFault) → GivesReply bytes reply
        → ¬ (IsRefusedReply bytes fault) }
{}

/// No bytes at all are no reply.
pub fn nothing_is_no_reply()
    ensures { (reply : ReplyParts) → ¬ (SpellsReply [] reply) }
{}
