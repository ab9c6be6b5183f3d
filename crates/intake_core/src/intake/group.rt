//! Several requests decided in their order, new ones with one commit.

ghost use Rattle.std.specs.Prelude.{◌≡◌, ◌<◌, ◌≤◌, ◌+◌, ℕ, List, All, length, take, true, false, vec_len, vec_capacity};
ghost use Rattle.std.specs.Prelude.{IsTrue, IfOk, OnOk, None, MatchResult};
ghost use Rattle.std.specs.List.{AllZip, zip};
ghost use Rattle.filing_model.specs.Request.{Request, has_key};
ghost use Rattle.intake_core.specs.Calls.{IsRequest};
ghost use Rattle.intake_core.specs.Group.{DecidesEachIf};
ghost use Rattle.intake_core.specs.Looked.{AreNewIf, TellsWhether, WasOpen};
ghost use Rattle.intake_core.specs.Moments.{DatesEachIf};
ghost use Rattle.intake_core.specs.Together.{AddsGroup, AddsResults, AddsResultsIf, AnswersGroup, AreNewBehind};
ghost use Rattle.intake_core.specs.Together.{AreRowsOf, IsJudgedAlone, KeepsFirst, LooksUp, RefusesGroup};
ghost use Rattle.intake_core.specs.Together.{in_milliseconds};
ghost use Rattle.intake_core.specs.Held.{store_of, limit_of, shows, has_stopped, ForRequests};

use super::{Intake, Unavailable};
use crate::{Request, answer_by, name_of};
use filing_model::{Answer, Outcome, Style};
use register_store::{Moment, NewRow, StoreFault};
use sqlite::Alter;
use std::alloc::{AllocError, Global};
use xbrl_report::{Judged, judge_amendment};

/// What a look-up tells of a request.
#[derive(Drop)]
pub enum Looked {
    /// Nothing is kept of its filer and key, so it would be kept.
    New,
    /// A request of its filer and key is kept, and this is what `submit` would answer.
    Repeat(Answer),
    /// Neither is known: the database refused, now or before, or there was no memory.
    Unknown,
}

/// What became of requests that were to be kept together.
#[derive(Drop)]
enum Together {
    /// They are kept, with these outcomes.
    Kept(Vec<Outcome>),
    /// None is kept, and each of so many is to be decided by itself.
    Alone(usize),
    /// None is kept, since the database refused these so many for another cause than memory.
    Failed(usize),
}

/// Whether one of these requests has the filer and key of this one.
fn has_key(requests: &[Request<'_>], request: &Request<'_>) -> bool
    ensures { result ≡ has_key requests.now request.now }
{
    requests.iter().any(|other| other.filer == request.filer
        && other.key.as_str() == request.key.as_str())
}

/// The rows of requests that came at these moments and were judged so.
fn rows_of<'a>(
    alloc: Global,
    requests: &'a [Request<'a>],
    moments: &[Moment],
    judged: &'a [Judged],
) -> Result<Vec<NewRow<'a>>, AllocError>
    requires moments { length moments.now ≡ length requests.now }
    requires judged { length judged.now ≡ length requests.now }
    ensures { IfOk result (λ rows. AreRowsOf requests.now moments.now judged.now rows.items) }
{
    let mut rows = Vec::new(alloc);
    for (at, request) in requests.iter().enumerate() {
        rows.push(NewRow {
            filer: request.filer,
            key: request.key,
            target: request.target,
            body: request.body,
            judged: &judged[at],
            moment: moments[at],
        })?;
    }
    Ok(rows)
}

impl<S: Alter> Intake<S> {
    /// Decides requests in their order, as `submit` decides each, but keeps those that are new and replace nothing with
    /// one commit, as far as no repeat and no request with a target comes between. Each came at the moment at its
    /// place. Answers what each request gets. If there is no memory for the answers, nothing is decided.
    ///
    /// With `are_new` the caller has looked up each, and `look_up` said `New`. Then the first ones, as far as they are
    /// kept together, are not looked up again; what the clauses say of the rows holds if no filer and key is held yet,
    /// and what they say of a crash, if the register is open too. They may share a filer and key: the second one is
    /// decided as a repeat.
    pub fn submit_all(
        &mut self,
        requests: &[Request<'_>],
        moments: &[Moment],
        are_new: bool,
    ) -> Result<Vec<Result<Answer, Unavailable>>, AllocError>
        requires requests { All IsRequest requests.now }
        requires moments { length moments.now ≡ length requests.now }
        ensures each { IfOk result (λ results. length results.items ≡ length requests.now) }
        ensures decides { MatchResult result (λ results. DecidesEachIf S.Store (WasOpen S.Store are_new self.old)
            (AreNewIf are_new requests.now) (zip requests.now results.items) self.old self.new)
            (λ _. self.new ≡ self.old) }
        ensures dates { IfOk result (λ results. DatesEachIf S.Store (WasOpen S.Store are_new self.old)
            (AreNewIf are_new requests.now) (zip requests.now results.items) (in_milliseconds moments.now) self.old
            self.new) }
    {
        if requests.is_empty() {
            return Ok(Vec::new(self.alloc));
        }
        let mut results = Vec::with_capacity(self.alloc, requests.len())?;
        self.submit_next(requests, moments, are_new, &mut results);
        let count = results.len();
        self.submit_others(&requests[count..], &moments[count..], &mut results);
        Ok(results)
    }

    /// Tells whether a request is new or a repeat, by its filer and key, and what a repeat gets. Nothing is written,
    /// and nothing else is decided: a refusal of the database is left to the call that decides.
    pub fn look_up(&mut self, request: &Request<'_>) -> Looked
        ensures tells { ForRequests S.Store self.old self.new (λ requests.
            TellsWhether S.Store requests request.now self.old self.new result) }
        ensures looks { LooksUp S.Store self.old self.new }
        ensures down { has_stopped self.old ≡ true → (result ≡ Looked.Unknown) × (self.new ≡ self.old) }
    {
        if self.is_down {
            return Looked::Unknown;
        }
        match self.answer_repeat(request) {
            Ok(Some(answer)) => Looked::Repeat(answer),
            Ok(None) => Looked::New,
            Err(_) => Looked::Unknown,
        }
    }

    /// Decides these requests in their order, as `submit_all` does, and looks up each.
    fn submit_others(
        &mut self,
        requests: &[Request<'_>],
        moments: &[Moment],
        results: &mut Vec<Result<Answer, Unavailable>>,
    )
        requires requests { All IsRequest requests.now }
        requires moments { length moments.now ≡ length requests.now }
        requires room { vec_len results.old + length requests.now ≤ vec_capacity results.old }
        ensures { AddsResults S.Store requests.now (in_milliseconds moments.now) self.old self.new results.old
            results.new }
    {
        let start = results.len();
        for at in 0..requests.len() {
            // Those before `results.len()` were decided together with one before them.
            if at == results.len() - start {
                self.submit_next(&requests[at..], &moments[at..], false, results);
            }
        }
    }

    /// Decides the first of these requests, and those that are kept together with it; with `are_new` each was looked up
    /// and is new. If there is no memory for all of them, each is decided by itself, so that none takes another down.
    fn submit_next(
        &mut self,
        requests: &[Request<'_>],
        moments: &[Moment],
        are_new: bool,
        results: &mut Vec<Result<Answer, Unavailable>>,
    )
        requires requests { All IsRequest requests.now }
        requires moments { length moments.now ≡ length requests.now }
        requires some { 0 < length requests.now }
        requires room { vec_len results.old + length requests.now ≤ vec_capacity results.old }
        ensures { (count : ℕ) × (0 < count) × (count ≤ length requests.now)
            × AddsResultsIf S.Store (WasOpen S.Store are_new self.old) (AreNewIf are_new requests.now)
            (take count requests.now) (take count (in_milliseconds moments.now)) self.old self.new results.old
            results.new }
    {
        if self.is_down {
            return self.submit_each(requests, moments, results);
        }
        match self.keep_first(requests, moments, are_new) {
            Together::Kept(outcomes) => {
                self.answer_group(&requests[..outcomes.len()], outcomes, results)
            }
            Together::Alone(count) => {
                self.submit_each(&requests[..count], &moments[..count], results)
            }
            Together::Failed(count) => self.refuse_group(&requests[..count], results),
        }
    }

    /// Decides each of these requests by itself, as it came at its moment.
    fn submit_each(
        &mut self,
        requests: &[Request<'_>],
        moments: &[Moment],
        results: &mut Vec<Result<Answer, Unavailable>>,
    )
        requires requests { All IsRequest requests.now }
        requires moments { length moments.now ≡ length requests.now }
        requires room { vec_len results.old + length requests.now ≤ vec_capacity results.old }
        ensures { AddsResults S.Store requests.now (in_milliseconds moments.now) self.old self.new results.old
            results.new }
    {
        for (at, request) in requests.iter().enumerate() {
            let result = self.submit_request(request, moments[at]);
            results.push_reserved(result);
        }
    }

    /// Refuses these requests, since the database refused to keep them.
    fn refuse_group(
        &mut self,
        requests: &[Request<'_>],
        results: &mut Vec<Result<Answer, Unavailable>>,
    )
        requires room { vec_len results.old + length requests.now ≤ vec_capacity results.old }
        ensures { RefusesGroup requests.now self.old self.new results.old results.new }
    {
        self.is_down = true;
        for _request in requests {
            results.push_reserved(Err(Unavailable::Store));
        }
    }

    /// Keeps the first of these requests, and those behind it that may be kept with one commit.
    fn keep_first(
        &mut self,
        requests: &[Request<'_>],
        moments: &[Moment],
        are_new: bool,
    ) -> Together
        requires requests { All IsRequest requests.now }
        requires moments { length moments.now ≡ length requests.now }
        requires some { 0 < length requests.now }
        ensures { KeepsFirst S.Store (WasOpen S.Store are_new self.old) (AreNewIf are_new requests.now) requests.now
            (in_milliseconds moments.now) self.old self.new result }
    {
        match self.judge_group(requests, are_new) {
            // What could not be looked up or judged is tried again by each request for itself.
            Err(_) => Together::Alone(requests.len()),
            Ok(judged) => {
                let count = judged.len();
                if count == 0 {
                    return Together::Alone(1);
                }
                match self.keep_group(&requests[..count], &moments[..count], &judged) {
                    Ok(outcomes) => Together::Kept(outcomes),
                    Err(StoreFault::Memory) => Together::Alone(count),
                    Err(StoreFault::Store) => Together::Failed(count),
                }
            }
        }
    }

    /// Keeps these requests, which came at these moments and were judged so, with one commit: all of them, or none.
    fn keep_group(
        &mut self,
        requests: &[Request<'_>],
        moments: &[Moment],
        judged: &[Judged],
    ) -> Result<Vec<Outcome>, StoreFault>
        requires requests { All IsRequest requests.now }
        requires moments { length moments.now ≡ length requests.now }
        requires judged { AllZip IsJudgedAlone requests.now judged.now }
        requires limit { (store_of self.old).kept + length requests.now ≤ limit_of self.old }
        ensures { AddsGroup S.Store requests.now (in_milliseconds moments.now) self.old self.new result }
    {
        let rows = rows_of(self.alloc, requests, moments, judged)?;
        self.store.add_all(&rows)
    }

    /// Remembers requests that were kept with these outcomes, and answers them.
    fn answer_group(
        &mut self,
        requests: &[Request<'_>],
        outcomes: Vec<Outcome>,
        results: &mut Vec<Result<Answer, Unavailable>>,
    )
        requires each { length outcomes.items ≡ length requests.now }
        requires room { vec_len results.old + length requests.now ≤ vec_capacity results.old }
        ensures { AnswersGroup S.Store requests.now outcomes.items self.old self.new results.old results.new }
    {
        let mut outcomes = outcomes.into_iter();
        for request in requests {
            if let Some(outcome) = outcomes.next() {
                let name = name_of(self.alloc, request).ok();
                self.remember(request, name, &outcome, Style::Problem);
                results.push_reserved(Ok(answer_by(outcome, false, Style::Problem)));
            }
        }
    }

    /// How the first of these requests are judged that may be kept together: each is new and replaces nothing, none has
    /// the filer and key of another, and there is room for all. With `are_new` each was looked up and is new.
    fn judge_group(
        &mut self,
        requests: &[Request<'_>],
        are_new: bool,
    ) -> Result<Vec<Judged>, StoreFault>
        ensures few { IfOk result (λ judged. length judged.items ≤ length requests.now) }
        ensures judged { IfOk result (λ judged.
            AllZip IsJudgedAlone (take (length judged.items) requests.now) judged.items) }
        ensures new { ForRequests S.Store self.old self.new (λ F. AreNewIf are_new requests.now F
            → IfOk result (λ judged. 0 < length judged.items
            → AreNewBehind F (take (length judged.items) requests.now)
            × (WasOpen S.Store are_new self.old → IsTrue (shows S.Store self.new).is_open))) }
        ensures limit { IfOk result (λ judged. 0 < length judged.items
            → (store_of self.new).kept + length judged.items ≤ limit_of self.new) }
        ensures looks { LooksUp S.Store self.old self.new }
    {
        let mut group = Vec::new(self.alloc);
        for (at, request) in requests.iter().enumerate() {
            if !self.may_join(&requests[..at], request, are_new)? {
                break;
            }
            group.reserve(1)?;
            let judged = judge_amendment(self.alloc, request.filer, request.body, true)?;
            group.push_reserved(judged);
        }
        Ok(group)
    }

    /// Whether a request may be kept together with these before it; with `is_new` it was looked up and is new.
    fn may_join(
        &mut self,
        before: &[Request<'_>],
        request: &Request<'_>,
        is_new: bool,
    ) -> Result<bool, StoreFault>
        ensures alone { IfOk result (λ joins. joins ≡ true → request.now.target ≡ None) }
        ensures own { IfOk result (λ joins. joins ≡ true → has_key before.now request.now ≡ false) }
        ensures limit { IfOk result (λ joins. joins ≡ true
            → (store_of self.new).kept + length before.now < limit_of self.new) }
        ensures new { ForRequests S.Store self.old self.new (λ requests. IfOk result (λ joins. joins ≡ true
            → (is_new ≡ true → has_key requests request.now ≡ false) → (has_key requests request.now ≡ false)
            × (WasOpen S.Store is_new self.old → IsTrue (shows S.Store self.new).is_open))) }
        ensures is_open { ForRequests S.Store self.old self.new (λ requests. IsTrue (shows S.Store self.old).is_open
            → OnOk result (IsTrue (shows S.Store self.new).is_open)) }
        ensures looks { LooksUp S.Store self.old self.new }
    {
        if !self.fits(before, request)? {
            return Ok(false);
        }
        if is_new {
            return Ok(true);
        }
        Ok(self.answer_repeat(request)?.is_none())
    }

    /// Whether a request may be kept together with these before it, if nothing is kept of its filer and key.
    fn fits(&self, before: &[Request<'_>], request: &Request<'_>) -> Result<bool, StoreFault>
        ensures alone { IfOk result (λ fits. fits ≡ true → request.now.target ≡ None) }
        ensures own { IfOk result (λ fits. fits ≡ true → has_key before.now request.now ≡ false) }
        ensures limit { IfOk result (λ fits. fits ≡ true
            → (store_of self.now).kept + length before.now < limit_of self.now) }
    {
        let kept = self.store.kept_count()?;
        Ok(
            request.target.is_none()
                && (before.len() as u64) < self.limit.keys.saturating_sub(kept)
                && !has_key(before, request),
        )
    }
}
