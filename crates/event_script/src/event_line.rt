//! What a line of a script says. The lines here have no line feed.

ghost use Rattle.std.specs.Prelude.{◌≡◌, map, option_map, option_copied, IfOk, IfSome};
ghost use Rattle.event_script.specs.Events.{view_crash, view_event, HasTarget};
ghost use Rattle.event_script.specs.Lines.{send_of, crash_at, delivery_stop, deliver_of, handing_stop, hand_of};
ghost use Rattle.event_script.specs.Lines.{restart_of, event_named, line_event, line_limit, line_filer};

use crate::event::{Crash, Event};
use crate::put::{read_amend, read_put};
use crate::stranger::read_stranger;
use crate::words::{read_amount, read_arrival, read_number, read_number_up_to, split_words};
use filing_model::MAX_KEPT;
use key_string::is_filer;
use std::alloc::{AllocError, Global};

/// `limit N`.
#[tactic(auto, unfolding(crate::specs::Lines::line_limit))]
pub(crate) fn read_limit_line(line: &str) -> Option<u64>
    ensures { result ≡ line_limit line.now }
{
    match line.split_once(' ')? {
        ("limit", limit) => read_number_up_to(MAX_KEPT, limit),
        _ => None,
    }
}

/// `outbox FILER`.
#[tactic(auto, unfolding(crate::specs::Lines::line_filer))]
pub(crate) fn read_outbox_line(line: &str) -> Option<&str>
    ensures { option_copied result ≡ line_filer line.now }
{
    match line.split_once(' ')? {
        ("outbox", filer) if is_filer(filer) => Some(filer),
        _ => None,
    }
}

/// The event that a line says.
#[tactic(auto, unfolding(crate::specs::Lines::line_event))]
pub(crate) fn read_event(alloc: Global, line: &str) -> Result<Option<Event>, AllocError>
    ensures read { IfOk result (λ event. option_map view_event event ≡ line_event line.now) }
    ensures targets { IfOk result (λ event. IfSome event (λ e. HasTarget (view_event e))) }
{
    match line.split_once(' ') {
        Some((name, rest)) => read_event_named(alloc, name, rest),
        None => Ok(None),
    }
}

#[tactic(auto, unfolding(crate::specs::Lines::event_named))]
fn read_event_named(alloc: Global, name: &str, rest: &str) -> Result<Option<Event>, AllocError>
    ensures read { IfOk result (λ event. option_map view_event event ≡ event_named name.now rest.now) }
    ensures targets { IfOk result (λ event. IfSome event (λ e. HasTarget (view_event e))) }
{
    match name {
        "put" => read_put(alloc, rest),
        "amend" => read_amend(alloc, rest),
        "stranger" => read_stranger(alloc, rest),
        "send" => Ok(read_send(&split_words(alloc, rest)?)),
        "deliver" => Ok(read_deliver(&split_words(alloc, rest)?)),
        "hand" => Ok(read_hand(&split_words(alloc, rest)?)),
        "restart" => Ok(read_restart(&split_words(alloc, rest)?)),
        _ => Ok(None),
    }
}

/// `O E`.
fn read_send(words: &[&str]) -> Option<Event>
    ensures read { option_map view_event result ≡ send_of (map (λ word. word.now) words.now) }
    ensures targets { IfSome result (λ e. HasTarget (view_event e)) }
{
    let [outbox, entry] = words else {
        return None;
    };
    let outbox = read_number(outbox)?;
    let entry = read_number(entry)?;
    Some(Event::Send { outbox, entry })
}

/// `S N`, and where the delivery stops.
fn read_deliver(words: &[&str]) -> Option<Event>
    ensures read { option_map view_event result ≡ deliver_of (map (λ word. word.now) words.now) }
    ensures targets { IfSome result (λ e. HasTarget (view_event e)) }
{
    let [item, bytes, stop @ ..] = words else {
        return None;
    };
    let item = read_number(item)?;
    let bytes = read_amount(bytes)?;
    let crash = read_delivery_stop(stop)?;
    Some(Event::Deliver { item, bytes, crash })
}

/// Nothing, `before J` or `after J`.
fn read_delivery_stop(words: &[&str]) -> Option<Crash>
    ensures { option_map view_crash result ≡ delivery_stop (map (λ word. word.now) words.now) }
{
    match words {
        [] => Some(Crash::No),
        [when, arrival] => crash_at(when, read_arrival(arrival)?),
        _ => None,
    }
}

/// `P N`, and where the outbox stops.
fn read_hand(words: &[&str]) -> Option<Event>
    ensures read { option_map view_event result ≡ hand_of (map (λ word. word.now) words.now) }
    ensures targets { IfSome result (λ e. HasTarget (view_event e)) }
{
    let [output, bytes, stop @ ..] = words else {
        return None;
    };
    let output = read_number(output)?;
    let bytes = read_amount(bytes)?;
    let crash = read_handing_stop(stop)?;
    Some(Event::Hand {
        output,
        bytes,
        crash,
    })
}

/// Nothing, `before` or `after`. There is one point to stop at.
fn read_handing_stop(words: &[&str]) -> Option<Crash>
    ensures { option_map view_crash result ≡ handing_stop (map (λ word. word.now) words.now) }
{
    match words {
        [] => Some(Crash::No),
        [when] => crash_at(when, 1),
        _ => None,
    }
}

/// `before` or `after`, at this arrival.
fn crash_at(when: &str, arrival: u32) -> Option<Crash>
    ensures { option_map view_crash result ≡ crash_at when.now arrival }
{
    match when {
        "before" => Some(Crash::Before(arrival)),
        "after" => Some(Crash::After(arrival)),
        _ => None,
    }
}

/// `server` or `outbox O`.
fn read_restart(words: &[&str]) -> Option<Event>
    ensures read { option_map view_event result ≡ restart_of (map (λ word. word.now) words.now) }
    ensures targets { IfSome result (λ e. HasTarget (view_event e)) }
{
    match words {
        [end] if *end == "server" => Some(Event::RestartServer),
        [end, outbox] if *end == "outbox" => {
            let outbox = read_number(outbox)?;
            Some(Event::RestartOutbox { outbox })
        }
        _ => None,
    }
}
