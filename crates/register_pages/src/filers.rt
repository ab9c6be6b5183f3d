//! The filers of a register, with how much each sent.

ghost use Rattle.std.specs.Prelude.{◌≡◌, ◌∷◌, [], OnOk};
ghost use Rattle.register_pages.specs.Gathering.{HaveSame, codes_of};

use register_rows::Line;
use std::alloc::{AllocError, Global};
use std::collections::BTreeMap;

/// How much a filer sent.
#[derive(Clone, Copy, Drop)]
pub(crate) struct Tally {
    pub(crate) filings: u64,
    /// Those of them that no filing replaces.
    pub(crate) current: u64,
    pub(crate) refused: u64,
}

impl Tally {
    /// Nothing is known yet.
    fn new() -> Tally {
        Tally {
            filings: 0,
            current: 0,
            refused: 0,
        }
    }

    /// Counts a request: the filing of this line, or a refused report.
    fn add(&mut self, line: Option<Line>) {
        match line {
            Some(line) => {
                self.filings = self.filings.saturating_add(1);
                if line.replaced_by().is_none() {
                    self.current = self.current.saturating_add(1);
                }
            }
            None => self.refused = self.refused.saturating_add(1),
        }
    }
}

/// The filers by their codes.
#[derive(Drop)]
pub(crate) struct Filers {
    pub(crate) list: BTreeMap<String, Tally>,
}

impl Filers {
    /// There is no filer yet.
    pub(crate) fn new(alloc: Global) -> Filers
        ensures { codes_of result ≡ [] }
    {
        Filers {
            list: BTreeMap::new(alloc),
        }
    }

    /// How many reports of a filer were refused.
    pub(crate) fn refused(&self, filer: &str) -> u64 {
        match self.list.get(filer) {
            Some(known) => known.refused,
            None => 0,
        }
    }

    /// Takes out what is known of a filer.
    fn take(&mut self, filer: &str) -> Tally
        ensures { HaveSame (filer.now ∷ codes_of self.new) (filer.now ∷ codes_of self.old) }
    {
        match self.list.remove(filer) {
            Some(known) => known,
            None => Tally::new(),
        }
    }

    /// Puts it back.
    fn put(&mut self, alloc: Global, filer: &str, known: Tally) -> Result<(), AllocError>
        ensures { OnOk result (HaveSame (codes_of self.new) (filer.now ∷ codes_of self.old)) }
    {
        let code = String::from_str(alloc, filer)?;
        drop(self.list.insert(code, known)?);
        Ok(())
    }

    /// A filer sent a request: the filing of this line, or a report that was refused.
    pub(crate) fn add(
        &mut self,
        alloc: Global,
        filer: &str,
        line: Option<Line>,
    ) -> Result<(), AllocError>
        ensures { OnOk result (HaveSame (codes_of self.new) (filer.now ∷ codes_of self.old)) }
    {
        let mut known = self.take(filer);
        known.add(line);
        self.put(alloc, filer, known)
    }
}
