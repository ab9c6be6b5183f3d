//! The lines of a text, each of which ends in a line feed.

ghost use Rattle.std.specs.Prelude.{◌≡◌, ◌+◌, ◌<◌, ◌^◌, ◌∷◌, [], length, IfSome, MatchOption};
ghost use Rattle.event_script.specs.Text.{lines_of};

use crate::fault::ScriptFault;

/// The part of a text that is still to be read, and the number of its first line, counted from 1.
#[derive(Clone, Copy)]
pub(crate) struct Lines<'t> {
    pub(crate) rest: &'t str,
    pub(crate) number: u64,
    ghost few: { number + length rest.now < 2 ^ 64 },
}

impl<'t> Lines<'t> {
    pub(crate) fn new(text: &'t str) -> Lines<'t>
        ensures rest { result.rest.now ≡ text.now }
        ensures number { result.number ≡ 1 }
    {
        Lines {
            rest: text,
            number: 1,
        }
    }

    /// The first line without its line feed, and what follows it.
    pub(crate) fn split_first(self) -> Option<(&'t str, Lines<'t>)>
        ensures parts { MatchOption result (lines_of self.entry.rest.now ≡ self.entry.rest.now ∷ [])
            (λ split. lines_of self.entry.rest.now ≡ split.0.now ∷ lines_of split.1.rest.now) }
        ensures number { IfSome result (λ split. split.1.number ≡ self.entry.number + 1) }
        ensures shorter { IfSome result (λ split. length split.1.rest.now < length self.entry.rest.now) }
    {
        let (line, rest) = self.rest.split_once('\n')?;
        let number = self.number + 1;
        Some((line, Lines { rest, number }))
    }

    /// The fault that the first line is wrong.
    pub(crate) fn unreadable(self) -> ScriptFault
        ensures { result ≡ ScriptFault.Unreadable self.entry.number }
    {
        ScriptFault::Unreadable { line: self.number }
    }
}
