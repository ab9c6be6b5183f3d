//! What is wrong with the line of a script that could not be read.

use event_script::{Complaint, Wrong, complaint_of};

/// Whether an outbox is named before the line of this number.
fn has_outbox(script: &str, line: usize) -> bool {
    let mut before = script.split('\n').take(line);
    before.any(|text| text.starts_with("outbox "))
}

/// What is wrong with the first line of a script that may not stand there, by its place, counted from 0.
fn complaint_at(script: &str, line: usize) -> Option<Complaint<'_>> {
    let mut lines = script.split('\n').skip(line);
    let word = lines.next()?;
    let is_ended = lines.next().is_some();
    let wrong = match (is_ended, has_outbox(script, line)) {
        (true, true) => return complaint_of(word),
        (false, true) => Wrong::Unended,
        (_, false) if line == 0 => Wrong::NoHead,
        (_, false) => Wrong::NoOutbox,
    };
    Some(Complaint { wrong, word })
}

/// What is wrong with the line of this number, counted from 1, which is the first that may not stand in this script.
pub(crate) fn complaint(script: &[u8], number: u64) -> Option<Complaint<'_>> {
    let line = usize::try_from(number).ok()?.checked_sub(1)?;
    complaint_at(str::from_utf8(script).ok()?, line)
}
