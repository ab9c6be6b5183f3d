//! Laws over every step. What may live here: functions that do nothing, each with a law as its
//! contract that holds of a step of any world, reached or not.

ghost use Rattle.std.specs.Prelude.{◌≡◌, ◌≢◌, ◌<◌, ◌≤◌, ℕ, Bool, List, Option, [], ◌∷◌, ◌++◌, length, take, Some};
ghost use Rattle.http_messages.specs.Head.{max_body_len};
ghost use Rattle.http_messages.specs.Reads.{max_reads};
ghost use Rattle.http_messages.specs.Reply.{ReplyParts, render};
ghost use Rattle.http_messages.specs.Response.{GivesReply, IsReadable};
ghost use Rattle.filing_model.specs.Prefix.{IsPrefixOf};
ghost use Rattle.filing_model.specs.Outbox.{State, Open, Entry, moved};
ghost use Rattle.filing_model.specs.Stopping.{Crash, Before};
ghost use Rattle.filing_world.specs.World.{World, Outbox, Output, Sent, Put, Deliver, Hand, numbered};
ghost use Rattle.filing_world.specs.Step.{Step};
ghost use Rattle.filing_world.specs.Headline.{HasEntry, states};
ghost use Rattle.filing_world.specs.Laws.{IsDelivered, IsAnswerTo, CanPlay, CompletesAtMost, IsUpUnlessStopped};

/// What can be played if the end that it needs is up: a key, a target and a body are put, a request is sent for any
/// entry, whatever its state, and a stranger sends any bytes. An end that is down, or up, is restarted.
pub fn can_be_played()
    ensures { (world : World) → CanPlay world }
{}

/// A report that is put is the last entry of its outbox, and open, unless its body is too long or its key is used.
pub fn adds_what_is_put()
    ensures { (old new : World) (outbox : ℕ) (box : Outbox) (key : List ℕ) (target : Option ℕ) (body : List ℕ)
        → numbered old.outboxes outbox ≡ Some box → length body ≤ max_body_len
        → ((number : ℕ) (entry : Entry) → numbered box.entries number ≡ Some entry → entry.key ≢ key)
        → Step old (Put outbox key target body) new
        → numbered new.outboxes outbox ≡ Some (record box {
          entries = box.entries ++ record
              { key = key; target = target; body = body; state = Open } ∷ [];
        }) }
{}

/// What a delivery completes. Of an entry's request it is that one request or nothing, and nothing
/// if the delivery is cut before its last byte. Of any bytes, a stop before the first arrival lets
/// nothing be completed, one before another arrival at most the arrivals before it, and one after an arrival
/// at most that one besides.
pub fn completes_no_more_than_came()
    ensures { (old new : World) (item given : ℕ) → CompletesAtMost old new item given }
{}

/// A delivery adds one output, which says what was served: of which item; how many bytes of it came, as many as the
/// event gives, or all if there are fewer; and what became of them.
pub fn tells_what_came()
    ensures { (old new : World) (item given : ℕ) (crash : Crash) (from : Sent)
        → numbered old.sent item ≡ Some from → Step old (Deliver item given crash) new
        → (output : Output) × IsDelivered old item given crash from output new }
{}

/// An outbox that stops before it has read a reply leaves every entry in its state.
pub fn hears_nothing_before_a_stop()
    ensures { (old new : World) (output given j : ℕ) → Step old (Hand output given (Before j)) new
        → states new ≡ states old }
{}

/// Bytes that give a reply, and are too few to use up the reads, move the entry by that reply, unless
/// its outbox stops before.
pub fn moves_by_a_whole_reply()
    ensures { (old new : World) (output given : ℕ) (crash : Crash) (from : Output) (outbox number : ℕ) (state : State)
        (reply : ReplyParts)
        → IsAnswerTo old output from outbox number → HasEntry old outbox number state → ((j : ℕ) → crash ≢ Before j)
        → GivesReply (take given from.bytes) reply → length (take given from.bytes) < max_reads
        → Step old (Hand output given crash) new → HasEntry new outbox number (moved state reply) }
{}

/// An end is up after its event exactly if it was not stopped. While it is down the intake takes no
/// delivery, and nothing is put into an outbox, sent from it or handed to it.
pub fn is_down_after_a_stop()
    ensures { (old new : World) (given : ℕ) (crash : Crash) → IsUpUnlessStopped old new given crash }
{}

/// What is handed over of a reply, unless it is the whole, moves no entry: none is confirmed by a reply
/// that was cut.
pub fn moves_nothing_by_a_cut_reply()
    ensures { (old new : World) (output given : ℕ) (crash : Crash) (from : Output) (reply : ReplyParts) (close : Bool)
        → numbered old.outputs output ≡ Some from → IsReadable reply
        → IsPrefixOf (take given from.bytes) (render reply close)
        → length (take given from.bytes) < length (render reply close) → Step old (Hand output given crash) new
        → states new ≡ states old }
{}
