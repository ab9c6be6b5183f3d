//! What holds of every reply as it is written and read again. What may live here: functions that do
//! nothing, each with a law about the definitions as its contract. The code that reads a reply has
//! contracts by the same definitions. The laws of bytes alone are those of `http_messages`.

ghost use Rattle.std.specs.Prelude.{◌≡◌, ℕ, Bool, List, Option, Some};
ghost use Rattle.http_messages.specs.Reply.{ReplyParts, render};
ghost use Rattle.http_wire.specs.ReplyFaults.{HasGiven, IsReplyFailure, IsOfReader};
ghost use Rattle.http_messages.specs.Response.{GivesReply, IsReadable};
ghost use Rattle.http_messages.specs.declared.refusal.ReplyFault.{ReplyFault};

pub use http_messages::laws::{
    bytes_begin_with_one_reply, bytes_have_one_list_of_arrivals, cut_post_is_nothing_or_whole,
    cut_reply_is_no_other, given_reply_is_not_refused, nothing_is_no_reply, post_is_read,
    reply_is_read, request_is_no_front_of_another,
};

/// What is written of such a reply is read again: if a reader gives it, in whatever pieces, no other
/// reply is read, and if none is read, the reader or the memory failed, or so many reads gave less than
/// all of it.
pub fn written_reply_is_read_again()
    ensures same { (reply : ReplyParts) (close : Bool) (after : Option (List ℕ)) → IsReadable reply
        → (other : ReplyParts) → HasGiven (Some (render reply close)) after (λ bytes. GivesReply bytes other)
        → other ≡ reply }
    ensures fault { (reply : ReplyParts) (close : Bool) (after : Option (List ℕ)) → IsReadable reply
        → (old new : ℕ) (fault : ReplyFault) → IsReplyFailure (Some (render reply close)) after old new fault
        → IsOfReader (render reply close) after fault }
{}
