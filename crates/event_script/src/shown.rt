//! The lines that show what came of a script.

ghost use Rattle.std.specs.Prelude.{◌≡◌, ◌++◌, IfOk, IfErr, OnOk, OnErr, string_bytes};
ghost use Rattle.key_string.specs.Key.{IsTextFault};
ghost use Rattle.filing_model.specs.Views.{view_state};
ghost use Rattle.event_script.specs.Shown.{replaces_words, filing_line, entry_line, done_line};

use filing_model::State;
use key_string::{KeyFault, KeyText, append_key};
use std::alloc::{AllocError, Global};

/// Appends `filing N FILER KEY`, where KEY is the key's spelling, with `replaces K` behind it if the filing replaces
/// filing K. An `Err` changes nothing.
pub fn append_filing(
    number: u64,
    filer: &str,
    key: &str,
    replaces: Option<u64>,
    text: &mut Vec<u8>,
) -> Result<(), KeyFault>
    ensures ok { OnOk result (text.new.items ≡ text.old.items ++ filing_line number filer.now key.now replaces) }
    ensures err { OnErr result (text.new.items ≡ text.old.items) }
    ensures fault { IfErr result (IsTextFault key.now) }
{
    let key = KeyText::new(*text.allocator(), key)?;
    let line = filing_line(*text.allocator(), number, filer, &key, replaces)?;
    Ok(text.extend_from_slice(line.as_slice())?)
}

fn filing_line(
    alloc: Global,
    number: u64,
    filer: &str,
    key: &KeyText,
    replaces: Option<u64>,
) -> Result<Vec<u8>, AllocError>
    ensures { IfOk result (λ line. line.items ≡ filing_line number filer.now key.now replaces) }
{
    let mut line = format!(in alloc; "filing {number} {filer} ")?.into_bytes();
    append_key(key, &mut line)?;
    let end = replaces_words(alloc, replaces)?;
    line.extend_from_slice(end.as_bytes())?;
    line.push(b'\n')?;
    Ok(line)
}

fn replaces_words(alloc: Global, replaces: Option<u64>) -> Result<String, AllocError>
    ensures { IfOk result (λ words. string_bytes words ≡ replaces_words replaces) }
{
    match replaces {
        Some(number) => format!(in alloc; " replaces {number}"),
        None => Ok(String::new(alloc)),
    }
}

/// Appends `entry O ID STATE`. An `Err` changes nothing.
pub fn append_entry(
    outbox: u64,
    entry: u64,
    state: State,
    text: &mut Vec<u8>,
) -> Result<(), AllocError>
    ensures ok { OnOk result (text.new.items ≡ text.old.items ++ entry_line outbox entry (view_state state)) }
    ensures err { OnErr result (text.new.items ≡ text.old.items) }
{
    let line = format!(in *text.allocator(); "entry {outbox} {entry} {state}\n")?;
    text.extend_from_slice(line.as_bytes())
}

/// Appends `done K`, the number of completed requests. An `Err` changes nothing.
pub fn append_done(count: usize, text: &mut Vec<u8>) -> Result<(), AllocError>
    ensures ok { OnOk result (text.new.items ≡ text.old.items ++ done_line count) }
    ensures err { OnErr result (text.new.items ≡ text.old.items) }
{
    let line = format!(in *text.allocator(); "done {count}\n")?;
    text.extend_from_slice(line.as_bytes())
}
