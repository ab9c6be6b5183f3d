//! Copies of the reports that an outbox has.

ghost use Rattle.std.specs.Prelude.{◌≡◌, IfOk};
ghost use Rattle.outbox_core.specs.Entries.{opened, set_state};
ghost use Rattle.filing_model.specs.Views.{view_state};

use crate::ends::keys::copy_key;
use key_string::KeyText;
use outbox_core::State;
use std::alloc::{AllocError, Global};
use std::marker::Model;

/// A report under its key, and what is known of it.
#[derive(Drop)]
pub(crate) struct Report {
    key: KeyText,
    target: Option<u64>,
    body: Vec<u8>,
    state: State,
}

impl Model for Report {
    ghost use Rattle.filing_model.specs.Outbox.{Entry};
    ghost use Rattle.filing_model.specs.Views.{view_state};

    ghost Value = { Entry };

    ghost view = { λ r. record { key = r.key; target = r.target; body = r.body.items; state = view_state r.state } };
}

impl Report {
    /// A report of which nothing is known yet, with copies of its key and its body.
    pub(crate) fn open(
        alloc: Global,
        key: &KeyText,
        target: Option<u64>,
        body: &[u8],
    ) -> Result<Report, AllocError>
        ensures { IfOk result (λ report. report ≡ opened key.now target body.now) }
    {
        Ok(Report {
            key: copy_key(alloc, key)?,
            target,
            body: Vec::from_slice(alloc, body)?,
            state: State::Open,
        })
    }

    /// Replaces what is known of the report.
    fn set_state(&mut self, state: State)
        ensures { self.new ≡ record self.old { state = view_state state } }
    {
        self.state = state;
    }
}

/// Replaces what is known of the report of this number, counted from 1.
pub(crate) fn set_state(reports: &mut Vec<Report>, number: u64, state: State)
    ensures { reports.new.items ≡ set_state reports.old.items number (view_state state) }
{
    if number == 0 {
        return;
    }
    let at = (number - 1) as usize;
    if at < reports.len() {
        let report = &mut reports[at];
        report.set_state(state);
    }
}
