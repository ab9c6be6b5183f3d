//! The filings of a register, by number: the place of each one's request, and what a list shows of it.

ghost use Rattle.std.specs.Prelude.{◌≡◌, ◌++◌, ◌∷◌, [], ℕ, suc, List, length, option_map, OnOk};
ghost use Rattle.filing_model.specs.Request.{Request};
ghost use Rattle.filing_model.specs.Register.{judged, kept};
ghost use Rattle.register_rows.specs.Catalogue.{HasRoom, IsRegisteredNext, catalogue_of, entries_among, entry_numbered};
ghost use Rattle.register_rows.specs.Catalogue.{number_or_none, view_line, view_lines};

use std::alloc::{AllocError, Global};

/// What is said of a filing. A number of 0 stands for none.
#[derive(Clone, Copy, Debug, PartialEq, Eq)]
pub struct Line {
    pub(crate) seq: u64,
    pub(crate) facts: u64,
    pub(crate) replaces: u64,
    pub(crate) replaced_by: u64,
}

fn number_or_none(number: u64) -> Option<u64>
    ensures { result ≡ number_or_none number }
{
    match number {
        0 => None,
        _ => Some(number),
    }
}

impl Line {
    /// The place of its kept request, counted from 1.
    pub fn seq(&self) -> u64
        ensures { result ≡ (view_line self.now).seq }
    {
        self.seq
    }

    /// How many facts it has.
    pub fn facts(&self) -> u64
        ensures { result ≡ (view_line self.now).facts }
    {
        self.facts
    }

    /// The number of the filing that it replaces, if it replaces one.
    pub fn replaces(&self) -> Option<u64>
        ensures { result ≡ (view_line self.now).replaces }
    {
        number_or_none(self.replaces)
    }

    /// The number of the filing that replaces it, if one does.
    pub fn replaced_by(&self) -> Option<u64>
        ensures { result ≡ (view_line self.now).replaced_by }
    {
        number_or_none(self.replaced_by)
    }
}

/// The filings of a register, from number 1 on.
#[derive(Debug, Drop)]
pub struct Catalogue {
    pub(crate) lines: Vec<Line>,
}

impl Catalogue {
    /// No filing.
    pub fn new(alloc: Global) -> Catalogue
        ensures { view_lines result ≡ [] }
    {
        Catalogue {
            lines: Vec::new(alloc),
        }
    }

    /// How many filings there are.
    pub fn len(&self) -> u64
        ensures { result ≡ length (view_lines self.now) }
    {
        self.lines.len() as u64
    }

    /// What is said of the filing with this number, if there is one.
    pub fn line(&self, number: u64) -> Option<&Line>
        ensures { option_map (λ line. view_line line.now) result ≡ entry_numbered (view_lines self.now) number }
    {
        if number == 0 {
            return None;
        }
        self.lines.get((number - 1) as usize)
    }

    /// Makes room for so many filings more. Whether there is room or not, the filings stay.
    pub fn reserve(&mut self, count: usize) -> Result<(), AllocError>
        ensures room { OnOk result (HasRoom count self.new) }
        ensures same { view_lines self.new ≡ view_lines self.old }
    {
        self.lines.reserve(count)
    }

    /// Adds the next filing, which has this place and so many facts, and replaces the filing with this number, if it
    /// replaces one.
    pub fn note(&mut self, seq: u64, facts: u64, target: Option<u64>)
        requires { HasRoom 1 self.old }
        ensures room { (count : ℕ) → HasRoom (suc count) self.old → HasRoom count self.new }
        ensures lines { (F : List Request) (r : Request) → view_lines self.old ≡ catalogue_of F
            → IsRegisteredNext (kept F) r seq facts target
            → view_lines self.new ≡ entries_among (kept F ++ judged (kept F) r ∷ []) }
    {
        self.lines.push_reserved(Line {
            seq,
            facts,
            replaces: target.unwrap_or(0),
            replaced_by: 0,
        });
        let next = self.lines.len() as u64;
        if let Some(number) = target {
            if 0 < number && number < next {
                self.lines[(number - 1) as usize].replaced_by = next;
            }
        }
    }
}
