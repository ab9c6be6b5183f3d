//! The filings of a register, by number: the filer of each, the place of its request, and what a list shows of it.

ghost use Rattle.std.specs.Prelude.{◌≡◌, ◌++◌, ◌∷◌, [], suc, List, length, IfOk, OnOk};
ghost use Rattle.xbrl_report.specs.Judgement.{HasFacts};
ghost use Rattle.filing_model.specs.Request.{Request};
ghost use Rattle.filing_model.specs.Register.{Kept, is_free, is_replaceable, judged, kept, register};
ghost use Rattle.register_rows.specs.Catalogue.{IsRegisteredNext, entries_among, view_lines};
ghost use Rattle.register_rows.specs.Filed.{AreFiled};
ghost use Rattle.register_rows.specs.Outcomes.{outcome_of};

use crate::catalogue::Catalogue;
use std::alloc::{AllocError, Global};
use xbrl_report::{Judged, judge_amendment};

/// The filings, from number 1 on.
#[derive(Drop)]
pub struct Filed {
    pub(crate) filers: Vec<String>,
    pub(crate) catalogue: Catalogue,
}

impl Filed {
    /// No filing.
    pub fn new(alloc: Global) -> Filed
        ensures { AreFiled [] result }
    {
        Filed {
            filers: Vec::new(alloc),
            catalogue: Catalogue::new(alloc),
        }
    }

    /// Whether the filer may replace the filing of this number: it is the filer's, and none replaces it.
    fn is_replaceable(&self, filer: &str, number: u64) -> bool
        ensures { (F : List Request) → AreFiled (kept F) self.now
            → result ≡ is_replaceable (register F) filer.now number }
    {
        if number == 0 || number > self.filers.len() as u64 {
            return false;
        }
        let owner = &self.filers[(number - 1) as usize];
        match self.catalogue.line(number) {
            Some(line) => owner.as_bytes() == filer.as_bytes() && line.replaced_by().is_none(),
            None => false,
        }
    }

    /// Whether the filer may replace the filing of this number, or none.
    pub(crate) fn is_free(&self, filer: &str, target: Option<u64>) -> bool
        ensures { (F : List Request) → AreFiled (kept F) self.now → result ≡ is_free (register F) filer.now target }
    {
        match target {
            Some(number) => self.is_replaceable(filer, number),
            None => true,
        }
    }

    /// Adds a filing of the filer, which has this place and so many facts, and replaces the filing with this number, if
    /// it replaces one.
    fn add(
        &mut self,
        alloc: Global,
        filer: &str,
        seq: u64,
        facts: u64,
        target: Option<u64>,
    ) -> Result<(), AllocError>
        ensures { (F : List Request) (r : Request) → AreFiled (kept F) self.old → r.filer ≡ filer.now
            → IsRegisteredNext (kept F) r seq facts target
            → OnOk result (AreFiled (kept F ++ judged (kept F) r ∷ []) self.new) }
    {
        self.catalogue.reserve(1)?;
        let filer = String::from_str(alloc, filer)?;
        self.filers.push(filer)?;
        self.catalogue.note(seq, facts, target);
        Ok(())
    }

    /// Judges a report that comes after these filings. It fails if memory runs out.
    pub fn judge(
        &self,
        alloc: Global,
        filer: &str,
        target: Option<u64>,
        body: &[u8],
    ) -> Result<Judged, AllocError>
        ensures judged { (F : List Request) (r : Request) → AreFiled (kept F) self.now → r.filer ≡ filer.now
            → r.target ≡ target → r.body ≡ body.now
            → IfOk result (λ j. (judged (kept F) r).outcome ≡ outcome_of (suc (length (register F))) j) }
        ensures facts { IfOk result (HasFacts body.now) }
    {
        judge_amendment(alloc, filer, body, self.is_free(filer, target))
    }

    /// Adds the filing that the kept request at this place is, if its report was found valid after these filings.
    pub fn note(
        &mut self,
        alloc: Global,
        filer: &str,
        seq: u64,
        target: Option<u64>,
        found: &Judged,
    ) -> Result<(), AllocError>
        ensures { (F : List Request) (r : Request) → AreFiled (kept F) self.old → r.filer ≡ filer.now
            → r.target ≡ target → HasFacts r.body found.now → seq ≡ suc (length (kept F))
            → (judged (kept F) r).outcome ≡ outcome_of (suc (length (register F))) found.now
            → OnOk result (AreFiled (kept F ++ judged (kept F) r ∷ []) self.new) }
    {
        match found {
            Judged::Valid(report) => {
                self.add(alloc, filer, seq, report.facts().len() as u64, target)
            }
            Judged::Refused(_) => Ok(()),
        }
    }

    /// What is said of the filings.
    pub fn into_catalogue(self) -> Catalogue
        ensures { (ks : List Kept) → AreFiled ks self → view_lines result ≡ entries_among ks }
    {
        let Filed {
            filers: _,
            catalogue,
        } = self;
        catalogue
    }
}
