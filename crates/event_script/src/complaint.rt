//! What is wrong with a line that says no event.

ghost use Rattle.std.specs.Prelude.{◌≡◌, option_map, option_copied};
ghost use Rattle.event_script.specs.Complaints.{fits, rest_of, word_of, behind_word, form_of, complaint_in};
ghost use Rattle.event_script.specs.Complaints.{complaint_of, view_complaint};
ghost use Rattle.event_script.specs.Words.{first_word};

use crate::words::{read_amount, read_arrival, read_filing_number, read_number};
use std::fmt;
use terminal_text::OneLine;

/// What has to stand at a place of a line.
#[derive(Clone, Copy, Debug, PartialEq, Eq)]
pub enum ScriptPart {
    Number,
    FilingNumber,
    Amount,
    Stop,
    Arrival,
    End,
    /// A key and a body, up to the end of the line.
    Report,
    /// A text in which backslashes stand for something, up to the end of the line.
    Text,
}

impl fmt::Display for ScriptPart {
    fn fmt<W: fmt::Write>(&self, f: &mut fmt::Formatter<W>) -> fmt::Result {
        f.write_str(match self {
            ScriptPart::Number => "number from 0 to 9223372036854775807",
            ScriptPart::FilingNumber => "number of a filing, from 1 on",
            ScriptPart::Amount => "number of bytes, nor `all`",
            ScriptPart::Stop => "`before`, nor `after`",
            ScriptPart::Arrival => "number from 0 to 4294967295",
            ScriptPart::End => "`server`, nor `outbox`",
            ScriptPart::Report => "key in double quotes, a space and a report",
            ScriptPart::Text => "text in which a backslash stands before r, n or a backslash alone",
        })
    }
}

/// What is wrong with a line.
#[derive(Clone, Copy, Debug, PartialEq, Eq)]
pub enum Wrong {
    /// Its first word names no event.
    NoEvent,
    /// A word, or the rest of the line, is not what has to stand there.
    Not(ScriptPart),
    /// It ends before this.
    Missing(ScriptPart),
    /// It goes on behind its last word.
    TooMany,
    /// It says neither a limit nor an outbox, and is the first line.
    NoHead,
    /// It says no outbox, and none was said before.
    NoOutbox,
    /// It does not end in a line feed.
    Unended,
}

/// What is wrong with a line, and the word that could not be read; an empty one if a word is missing.
#[derive(Clone, Copy, Debug)]
pub struct Complaint<'l> {
    pub wrong: Wrong,
    pub word: &'l str,
}

/// How many characters of a word are shown.
const MOST_SHOWN: usize = 40;

impl fmt::Display for Complaint<'_> {
    fn fmt<W: fmt::Write>(&self, f: &mut fmt::Formatter<W>) -> fmt::Result {
        let front = front_of(self.word);
        let word = OneLine(front);
        let dots = if front.len() < self.word.len() {
            ".."
        } else {
            ""
        };
        match self.wrong {
            Wrong::NoEvent => write!(
                f,
                "\"{word}\"{dots} is no event: put, amend, send, stranger, deliver, hand or restart"
            ),
            Wrong::Not(kind) => write!(f, "\"{word}\"{dots} is no {kind}"),
            Wrong::Missing(kind) => write!(f, "a word is missing: no {kind}"),
            Wrong::TooMany => write!(f, "\"{word}\"{dots} is a word too many"),
            Wrong::NoHead => write!(f, "\"{word}\"{dots} is neither limit N nor outbox FILER"),
            Wrong::NoOutbox => write!(f, "\"{word}\"{dots} is no outbox FILER"),
            Wrong::Unended => write!(f, "\"{word}\"{dots} does not end in a line feed"),
        }
    }
}

/// The first characters of a word.
fn front_of(word: &str) -> &str {
    match word.char_indices().nth(MOST_SHOWN) {
        Some((end, _)) => word.get(..end).unwrap_or(word),
        None => word,
    }
}

impl ScriptPart {
    /// What has to be of this kind at the front of the rest of a line, and what follows it, if anything does.
    fn split(self, words: &str) -> (&str, Option<&str>)
        ensures word { result.0.now ≡ word_of self words.entry.now }
        ensures rest { option_copied result.1 ≡ rest_of self words.entry.now }
    {
        match self {
            ScriptPart::Report | ScriptPart::Text => (words, None),
            _ => split_word(words),
        }
    }

    /// Whether a word is of this kind. No report or text is, since one is looked at only where all else is right.
    fn fits(self, word: &str) -> bool
        ensures { result ≡ fits self word.now }
    {
        match self {
            ScriptPart::Number => read_number(word).is_some(),
            ScriptPart::FilingNumber => read_filing_number(word).is_some(),
            ScriptPart::Amount => read_amount(word).is_some(),
            ScriptPart::Arrival => read_arrival(word).is_some(),
            ScriptPart::Stop => word == "before" || word == "after",
            ScriptPart::End => word == "server" || word == "outbox",
            ScriptPart::Report | ScriptPart::Text => false,
        }
    }
}

/// The first word, and what stands behind the space after it, if there is one.
fn split_word(words: &str) -> (&str, Option<&str>)
    ensures word { result.0.now ≡ first_word words.entry.now }
    ensures rest { option_copied result.1 ≡ behind_word words.entry.now }
{
    match words.split_once(' ') {
        Some((word, rest)) => (word, Some(rest)),
        None => (words, None),
    }
}

/// What an event of this name has behind it; for a restart it goes by the word that follows.
fn form_of(name: &str, next: &str) -> Option<&'static [ScriptPart]>
    ensures { option_copied result ≡ form_of name.now next.now }
{
    match name {
        "put" => Some(&[ScriptPart::Number, ScriptPart::Report]),
        "amend" => Some(&[
            ScriptPart::Number,
            ScriptPart::FilingNumber,
            ScriptPart::Report,
        ]),
        "send" => Some(&[ScriptPart::Number, ScriptPart::Number]),
        "stranger" => Some(&[ScriptPart::Text]),
        "deliver" => Some(&[
            ScriptPart::Number,
            ScriptPart::Amount,
            ScriptPart::Stop,
            ScriptPart::Arrival,
        ]),
        "hand" => Some(&[ScriptPart::Number, ScriptPart::Amount, ScriptPart::Stop]),
        "restart" if next == "server" => Some(&[ScriptPart::End]),
        "restart" => Some(&[ScriptPart::End, ScriptPart::Number]),
        _ => None,
    }
}

/// What is wrong with the rest of a line that has to have this form.
fn complaint_in<'l>(form: &[ScriptPart], rest: Option<&'l str>) -> Option<Complaint<'l>>
    ensures { option_map view_complaint result ≡ complaint_in form.now (option_copied rest.entry) }
{
    let mut rest = rest;
    for &kind in form {
        let Some(words) = rest else {
            let wrong = Wrong::Missing(kind);
            return Some(Complaint { wrong, word: "" });
        };
        let (word, behind) = kind.split(words);
        if !kind.fits(word) {
            let wrong = Wrong::Not(kind);
            return Some(Complaint { wrong, word });
        }
        rest = behind;
    }
    let words = rest?;
    let (word, _) = split_word(words);
    let wrong = Wrong::TooMany;
    Some(Complaint { wrong, word })
}

/// What is wrong with a line that says no event: the first word that may not stand where it stands, or that one is
/// missing.
#[tactic(auto, unfolding(crate::specs::Complaints::complaint_of))]
pub fn complaint_of(line: &str) -> Option<Complaint<'_>>
    ensures { option_map view_complaint result ≡ complaint_of line.entry.now }
{
    let (name, rest) = split_word(line);
    let (next, _) = split_word(rest.unwrap_or(""));
    match form_of(name, next) {
        Some(form) => complaint_in(form, rest),
        None => Some(Complaint {
            wrong: Wrong::NoEvent,
            word: name,
        }),
    }
}
