//! What several connections ask to file, decided together.

ghost use Rattle.std.specs.Prelude.{◌≡◌, ◌≤◌, [], All, length, vec_capacity, IfOk, OnErr};
ghost use Rattle.std.specs.List.{AllZip};
ghost use Rattle.intake_core.specs.Calls.{IsRequest};
ghost use Rattle.intake_core.specs.Held.{limit_of, KeepsSetting, IsTransitionIf};
ghost use Rattle.intake_core.specs.Looked.{AreNewIf};
ghost use Rattle.intake_core.specs.Together.{in_milliseconds};
ghost use Rattle.gateway_server.specs.Decided.{IsOfGiven, IsPhrased};
ghost use Rattle.gateway_server.specs.Group.{AreSubmitted, DecideInTurn};

use crate::decide::{Decided, decided_by};
use intake_core::{Answer, Intake, Moment, Request, Unavailable};
use sqlite::Alter;
use std::alloc::{AllocError, Global};

/// Decides requests in their order, new ones with one commit as far as `submit_all` can: each gets the mark and the
/// reply that it would get alone, after those before it. Each came at the moment at its place, and has it for good if
/// it is kept. If there is no memory for what they get, nothing is decided.
///
/// With `are_new` each was looked up and found to be new. Then what is said of rows holds if none of them was held
/// before, and what is said of a stop, if the register was open too.
pub fn file_all<S: Alter>(
    alloc: Global,
    intake: &mut Intake<S>,
    requests: &[Request<'_>],
    moments: &[Moment],
    are_new: bool,
) -> Result<Vec<Decided>, AllocError>
    requires requests { All IsRequest requests.now }
    requires moments { length moments.now ≡ length requests.now }
    ensures each { IfOk result (λ all. length all.items ≡ length requests.now) }
    ensures decided { IfOk result (λ all. IsTransitionIf S.Store (AreNewIf are_new requests.now) intake.old intake.new
        (λ old_style before after. DecideInTurn (limit_of intake.old) old_style before after requests.now all.items)) }
    ensures phrases { IfOk result (λ all. All IsPhrased all.items) }
    ensures submitted { IfOk result (λ all. AreSubmitted S.Store are_new requests.now (in_milliseconds moments.now)
        intake.old intake.new all.items) }
    ensures setting { KeepsSetting S.Store intake.old intake.new }
    ensures refused { OnErr result (intake.new ≡ intake.old) }
{
    let mut all = Vec::with_capacity(alloc, requests.len())?;
    let results = intake.submit_all(requests, moments, are_new)?;
    tell(alloc, results.as_slice(), &mut all);
    Ok(all)
}

/// What each request gets to which the intake answered so, in the room that was made.
fn tell(alloc: Global, results: &[Result<Answer, Unavailable>], all: &mut Vec<Decided>)
    requires none { all.old.items ≡ [] }
    requires room { length results.now ≤ vec_capacity all.old }
    ensures are { AllZip IsOfGiven results.now all.new.items }
    ensures each { length all.new.items ≡ length results.now }
    ensures phrases { All IsPhrased all.new.items }
{
    for at in 0..results.len() {
        all.push_reserved(decided_by(alloc, &results[at]));
    }
}
