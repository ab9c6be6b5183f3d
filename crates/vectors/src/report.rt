//! The vectors by their numbers.

ghost use Rattle.std.specs.Prelude.{◌≡◌, ◌+◌, ◌<◌, ◌^◌, All, filter, length, map, vec_len, IfOk};
ghost use Rattle.vectors.specs.Report.{AreSomeOf, IsWhole, fails};

use crate::{calls, schedules};
use std::alloc::{AllocError, Global};

/// Which vectors passed.
#[derive(Debug, Drop)]
pub struct VectorReport {
    /// How many passed.
    pub passed: u32,
    /// The numbers of those that did not, ascending.
    pub failed: Vec<u32>,
}

/// The numbers of the vectors.
pub const NUMBERS: [u32; 27] = [
    1, 2, 3, 4, 5, 6, 7, 8, 9, 10, 11, 12, 13, 14, 15, 16, 17, 18, 19, 20, 21, 22, 23, 24, 25, 26,
    27,
];

/// How a vector went: whether what it compares over the public calls came out as written, and what it compares of a
/// script that is played, if it has either.
#[derive(Clone, Copy)]
struct Outcome {
    number: u32,
    calls: Option<bool>,
    script: Option<bool>,
}

impl Outcome {
    ghost use Rattle.vectors.specs.Report.{passes};

    /// Whether no part of the vector failed.
    fn passed(self) -> bool
        ensures { result ≡ passes self }
    {
        self.calls.unwrap_or(true) && self.script.unwrap_or(true)
    }
}

/// Runs all vectors.
pub fn run_all(alloc: Global) -> Result<VectorReport, AllocError>
    ensures failed { IfOk result (λ report. AreSomeOf NUMBERS report.failed.items) }
    ensures passed { IfOk result (λ report. report.passed + vec_len report.failed ≡ length NUMBERS) }
{
    run(alloc, &NUMBERS)
}

/// Runs the vectors of these numbers, each over databases of its own in memory. If memory was refused, it answers that.
pub fn run(alloc: Global, numbers: &[u32]) -> Result<VectorReport, AllocError>
    requires { length numbers.now < 2 ^ 32 }
    ensures failed { IfOk result (λ report. AreSomeOf numbers.now report.failed.items) }
    ensures passed { IfOk result (λ report. report.passed + vec_len report.failed ≡ length numbers.now) }
{
    let outcomes = run_each(alloc, numbers)?;
    report_of(alloc, outcomes.as_slice())
}

/// How the vectors of these numbers went, in their order.
fn run_each(alloc: Global, numbers: &[u32]) -> Result<Vec<Outcome>, AllocError>
    ensures numbers { IfOk result (λ outcomes. map (λ o. o.number) outcomes.items ≡ numbers.now) }
    ensures whole { IfOk result (λ outcomes. All IsWhole outcomes.items) }
{
    let mut outcomes = Vec::new(alloc);
    for &number in numbers {
        outcomes.push(outcome_of(alloc, number)?)?;
    }
    Ok(outcomes)
}

/// How the vector of this number went. Vectors 15 and 16 are scripts, and so are the end of vector 24 and the beginning
/// of vector 27.
fn outcome_of(alloc: Global, number: u32) -> Result<Outcome, AllocError>
    ensures number { IfOk result (λ outcome. outcome.number ≡ number) }
    ensures whole { IfOk result IsWhole }
{
    let calls = match number {
        15 | 16 => None,
        _ => Some(calls::run(alloc, number)?),
    };
    let script = match number {
        15 | 16 | 24 | 27 => Some(schedules::run(alloc, number)?),
        _ => None,
    };
    Ok(Outcome {
        number,
        calls,
        script,
    })
}

/// Which vectors passed, by how they went.
fn report_of(alloc: Global, outcomes: &[Outcome]) -> Result<VectorReport, AllocError>
    requires { length outcomes.now < 2 ^ 32 }
    ensures failed { IfOk result (λ report. report.failed.items ≡ map (λ o. o.number) (filter fails outcomes.now)) }
    ensures passed { IfOk result (λ report. report.passed + vec_len report.failed ≡ length outcomes.now) }
{
    let mut passed = 0u32;
    let mut failed = Vec::new(alloc);
    for outcome in outcomes {
        if outcome.passed() {
            passed += 1;
        } else {
            failed.push(outcome.number)?;
        }
    }
    Ok(VectorReport { passed, failed })
}
