//! How often each code was found, and in whose reports.

use crate::parts::page_of;
use std::alloc::{AllocError, Global};
use std::collections::BTreeMap;
use xbrl_report::{Code, Finding};

/// A refused report: its place, and the number of the page of its filer that shows it.
#[derive(Clone, Copy, Drop)]
pub(crate) struct Shown {
    pub(crate) place: u64,
    pub(crate) page: usize,
}

/// Where a code was found.
#[derive(Drop)]
pub(crate) struct Where {
    pub(crate) findings: u64,
    pub(crate) reports: u64,
    /// The filers in whose reports it was found, each with the first of these.
    pub(crate) filers: BTreeMap<String, Shown>,
    /// The place of the last one of the reports.
    last: u64,
}

impl Where {
    /// It was not found yet.
    fn new(alloc: Global) -> Where {
        Where {
            findings: 0,
            reports: 0,
            filers: BTreeMap::new(alloc),
            last: 0,
        }
    }

    /// It was found in this filer's report once more.
    fn add(&mut self, alloc: Global, filer: &str, report: Shown) -> Result<(), AllocError> {
        self.findings = self.findings.saturating_add(1);
        if self.last == report.place {
            return Ok(());
        }
        self.last = report.place;
        self.reports = self.reports.saturating_add(1);
        if self.filers.get(filer).is_none() {
            let code = String::from_str(alloc, filer)?;
            drop(self.filers.insert(code, report)?);
        }
        Ok(())
    }
}

/// How many reports were refused, and where each code was found in them.
#[derive(Drop)]
pub(crate) struct Found {
    pub(crate) reports: u64,
    /// By the number of the code.
    pub(crate) codes: Vec<Where>,
}

impl Found {
    /// No report was refused yet.
    pub(crate) fn new(alloc: Global) -> Result<Found, AllocError> {
        let mut codes = Vec::new(alloc);
        for _ in 0..27u8 {
            codes.push(Where::new(alloc))?;
        }
        Ok(Found { reports: 0, codes })
    }

    /// The report at this place was refused for these findings. So many of its filer's were refused before.
    pub(crate) fn add(
        &mut self,
        alloc: Global,
        filer: &str,
        before: u64,
        place: u64,
        findings: &[Finding],
    ) -> Result<(), AllocError> {
        self.reports = self.reports.saturating_add(1);
        let page = page_of(before);
        for finding in findings {
            self.add_code(alloc, filer, Shown { place, page }, finding.code)?;
        }
        Ok(())
    }

    /// A code was found in this filer's report.
    fn add_code(
        &mut self,
        alloc: Global,
        filer: &str,
        report: Shown,
        code: Code,
    ) -> Result<(), AllocError> {
        match self.codes.get_mut(code.number() as usize) {
            Some(its) => its.add(alloc, filer, report),
            None => Ok(()),
        }
    }
}
