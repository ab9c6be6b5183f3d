//! How a text is read as a script.

ghost use Rattle.std.specs.Prelude.{◌≡◌, ◌+◌, ◌^◌, ◌<◌, ◌≤◌, ◌∷◌, [], length, map, drop, string_bytes, IfOk, IfErr};
ghost use Rattle.std.specs.Prelude.{IfSome, MatchOption};
ghost use Rattle.filing_world.specs.Headline.{AreFilers};
ghost use Rattle.event_script.specs.Events.{view_event, HaveTargets};
ghost use Rattle.event_script.specs.Text.{lines_of};
ghost use Rattle.event_script.specs.Scripts.{events_from, filers_of, limit_of, script_from, script_of, view_script};
ghost use Rattle.event_script.specs.Scripts.{IsFaultOf};

use crate::event::Event;
use crate::event_line::{read_event, read_limit_line, read_outbox_line};
use crate::fault::ScriptFault;
use crate::lines::Lines;
use crate::script::Script;
use std::alloc::{AllocError, Global};

/// How many filers' keys an intake keeps if the script says no limit (own rule).
const DEFAULT_LIMIT: u64 = 1_000_000;

/// The script that a text spells (own format). Its lines end in LF, the last one too; its words are parted by one
/// space; its numbers are decimal, without leading zeros, and at most 2^63 - 1, or 2^32 - 1 for an arrival to stop at.
/// The first line may say `limit N`, with N at most 2^62; without it the limit is 1,000,000. Then come one or more
/// lines
/// `outbox FILER`, and then any events:
///
/// ```text
/// put O KEY BODY          KEY is the spelling of a key, BODY the rest of the line
/// amend O N KEY BODY      as put, with a report that is to replace filing N
/// send O E
/// stranger TEXT           \r, \n, \\ stand for CR, LF, backslash
/// deliver S N             N is a number or all
/// deliver S N before J    or: deliver S N after J
/// hand P N                or: hand P N before, hand P N after
/// restart server
/// restart outbox O
/// ```
///
/// BODY and TEXT may be empty, behind their space. An error names the first line that may not stand there, or says that
/// memory ran out, which says nothing about the text.
pub fn read_script(alloc: Global, text: &str) -> Result<Script, ScriptFault>
    ensures read { IfOk result (λ script. script_of text.now ≡ Ok (view_script script)) }
    ensures filers { IfOk result (λ script. AreFilers (map string_bytes script.filers.items)) }
    ensures limit { IfOk result (λ script. script.limit ≤ 2 ^ 62) }
    ensures targets { IfOk result (λ script. HaveTargets (map view_event script.events.items)) }
    ensures wrong { IfErr result (IsFaultOf (script_of text.now)) }
{
    let lines = Lines::new(text);
    match split_limit(lines) {
        Some((limit, behind)) => read_behind_limit(alloc, limit, behind),
        None => read_behind_limit(alloc, DEFAULT_LIMIT, lines),
    }
}

fn split_limit(text: Lines<'_>) -> Option<(u64, Lines<'_>)>
    ensures limit { MatchOption result (limit_of (lines_of text.entry.rest.now) ≡ None)
        (λ split. limit_of (lines_of text.entry.rest.now) ≡ Some split.0) }
    ensures behind { IfSome result (λ split. lines_of split.1.rest.now ≡ drop 1 (lines_of text.entry.rest.now)) }
    ensures number { IfSome result (λ split. split.1.number ≡ text.entry.number + 1) }
{
    let (line, behind) = text.split_first()?;
    let limit = read_limit_line(line)?;
    Some((limit, behind))
}

/// One outbox or more, and the events behind them.
fn read_behind_limit(alloc: Global, limit: u64, text: Lines<'_>) -> Result<Script, ScriptFault>
    ensures read { IfOk result (λ script.
        script_from limit text.entry.number (lines_of text.entry.rest.now) ≡ Ok (view_script script)) }
    ensures targets { IfOk result (λ script. HaveTargets (map view_event script.events.items)) }
    ensures wrong { IfErr result (IsFaultOf (script_from limit text.entry.number (lines_of text.entry.rest.now))) }
{
    let (filers, behind) = read_filers(alloc, text)?;
    if filers.is_empty() {
        return Err(text.unreadable());
    }
    let events = read_events(alloc, behind)?;
    Ok(Script {
        filers,
        limit,
        events,
    })
}

fn read_filers(alloc: Global, text: Lines<'_>) -> Result<(Vec<String>, Lines<'_>), AllocError>
    ensures filers { IfOk result (λ read. map string_bytes read.0.items ≡ filers_of (lines_of text.entry.rest.now)) }
    ensures behind { IfOk result (λ read.
        lines_of read.1.rest.now ≡ drop (length read.0.items) (lines_of text.entry.rest.now)) }
    ensures number { IfOk result (λ read. read.1.number ≡ text.entry.number + length read.0.items) }
{
    let mut filers = Vec::new(alloc);
    let mut behind = text;
    while let Some((filer, after)) = split_filer(behind) {
        let filer = String::from_str(alloc, filer)?;
        filers.reserve(1)?;
        filers.push_reserved(filer);
        behind = after;
    }
    Ok((filers, behind))
}

fn split_filer(text: Lines<'_>) -> Option<(&str, Lines<'_>)>
    ensures filer { MatchOption result (filers_of (lines_of text.entry.rest.now) ≡ [])
        (λ split. filers_of (lines_of text.entry.rest.now) ≡ split.0.now ∷ filers_of (lines_of split.1.rest.now)) }
    ensures behind { IfSome result (λ split. lines_of split.1.rest.now ≡ drop 1 (lines_of text.entry.rest.now)) }
    ensures number { IfSome result (λ split. split.1.number ≡ text.entry.number + 1) }
    ensures shorter { IfSome result (λ split. length split.1.rest.now < length text.entry.rest.now) }
{
    let (line, behind) = text.split_first()?;
    let filer = read_outbox_line(line)?;
    Some((filer, behind))
}

fn read_events(alloc: Global, text: Lines<'_>) -> Result<Vec<Event>, ScriptFault>
    ensures read { IfOk result (λ events.
        events_from text.entry.number (lines_of text.entry.rest.now) ≡ Ok (map view_event events.items)) }
    ensures targets { IfOk result (λ events. HaveTargets (map view_event events.items)) }
    ensures wrong { IfErr result (IsFaultOf (events_from text.entry.number (lines_of text.entry.rest.now))) }
{
    let mut events = Vec::new(alloc);
    let mut behind = text;
    while let Some((line, after)) = behind.split_first() {
        let Some(event) = read_event(alloc, line)? else {
            return Err(behind.unreadable());
        };
        events.reserve(1)?;
        events.push_reserved(event);
        behind = after;
    }
    if behind.rest.is_empty() {
        Ok(events)
    } else {
        Err(behind.unreadable())
    }
}
