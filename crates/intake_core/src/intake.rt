//! The intake: its register, and the answer to the next request.

ghost use Rattle.std.specs.Prelude.{◌≡◌, ◌≢◌, ◌↔◌, ◌<◌, ◌≤◌, ◌^◌, ◌⊎◌, ℕ, List, length, map, true, false, Err, None};
ghost use Rattle.std.specs.Prelude.{◌∷◌, [], Some, IfOk, IfSome, IsTrue, OnOk};
ghost use Rattle.std.specs.Option.{option_to_list};
ghost use Rattle.key_string.specs.Filer.{is_filer};
ghost use Rattle.http_messages.specs.Head.{max_body_len};
ghost use Rattle.http_messages.specs.Posting.{IsTarget};
ghost use Rattle.xbrl_report.specs.Judgement.{HasFacts};
ghost use Rattle.filing_model.specs.Request.{Request, firsts, has_key};
ghost use Rattle.filing_model.specs.Register.{is_free, register};
ghost use Rattle.filing_model.specs.Listing.{listings};
ghost use Rattle.filing_model.specs.Answer.{answer_from};
ghost use Rattle.filing_model.specs.Style.{style_of, HasStyle};
ghost use Rattle.filing_model.specs.Views.{view_answer, view_outcome, view_row, the_request};
ghost use Rattle.register_store.specs.Outcomes.{kept_as};
ghost use Rattle.register_store.specs.Store.{HasRequests};
ghost use Rattle.register_store.specs.Calls.{AddsMoments, AddsRequest};
ghost use Rattle.intake_core.specs.declared.intake.Unavailable.TheVariants.{Down, Full, Memory, Store as StoreFailed};

mod group;

use crate::{Cache, Request, answer_by, name_of};
use filing_model::{Answer, FilingRow, Outcome, Registered, Style};
pub use group::Looked;
use key_string::KeyText;
use register_store::{KeptRow, Moment, NewRow, Store, StoreFault};
use sqlite::Alter;
use std::alloc::{AllocError, Global};
use thiserror::Error;
use xbrl_report::judge_amendment;

/// Why a request gets no answer. The register is as it was, and the request may be sent again.
#[derive(Clone, Copy, Debug, PartialEq, Eq, Error)]
pub enum Unavailable {
    /// The database failed earlier, and is to be opened again.
    #[error("the database failed earlier")]
    Down,
    /// The register holds `kept` keys, which is the limit or more, and this one is not among them.
    #[error("{kept} keys are kept, and no more may be")]
    Full { kept: u64 },
    /// No memory was left.
    #[error("out of memory")]
    Memory,
    /// The database refused for another cause.
    #[error("the database failed")]
    Store,
}

impl From<AllocError> for Unavailable {
    ghost from_gives = { λ _ u. u ≡ Memory };

    fn from(_error: AllocError) -> Unavailable {
        Unavailable::Memory
    }
}

impl From<StoreFault> for Unavailable {
    ghost use Rattle.table_rows.specs.declared.fault.StoreFault.TheVariants as fault;

    ghost from_gives = { λ f u. ((f ≡ fault.Memory) × (u ≡ Memory)) ⊎ ((f ≡ fault.Store) × (u ≡ StoreFailed)) };

    fn from(fault: StoreFault) -> Unavailable {
        match fault {
            StoreFault::Memory => Unavailable::Memory,
            StoreFault::Store => Unavailable::Store,
        }
    }
}

/// Whether a request got no answer because the database refused for another cause than memory.
fn store_failed(answer: &Result<Answer, Unavailable>) -> bool
    ensures { (result ≡ true) ↔ (answer.now ≡ Err StoreFailed) }
{
    match answer {
        Err(Unavailable::Store) => true,
        _ => false,
    }
}

/// How many keys may be kept.
#[derive(Clone, Copy)]
struct Limit {
    keys: u64,
    ghost few: { keys ≤ 2 ^ 62 },
}

/// A register, how many keys it may keep, the moment at which the next request came, and a cache of the answers, which
/// no answer shows.
pub struct Intake<S: Alter> {
    alloc: Global,
    store: Store<S>,
    limit: Limit,
    moment: Moment,
    is_down: bool,
    cache: Option<Cache>,
}

impl<S: Alter + Drop> Drop for Intake<S> {
    fn drop(self) {
        let Intake {
            alloc: _,
            store: _,
            limit: _,
            moment: _,
            is_down: _,
            cache: _,
        } = self;
    }
}

impl<S: Alter> Intake<S> {
    ghost use Rattle.intake_core.specs.Calls.{DecidesRequest, IsRequest};
    ghost use Rattle.intake_core.specs.Held.{store_of, limit_of, has_stopped, HoldsRequests};
    ghost use Rattle.intake_core.specs.Moments.{DatesRequest, moment_of};

    /// An intake over this register, which keeps at most `limit` keys. A request came at the beginning of 1970, until
    /// `date` says another moment.
    pub fn new(alloc: Global, store: Store<S>, limit: u64) -> Intake<S>
        requires { limit ≤ 2 ^ 62 }
        ensures limit { limit_of result ≡ limit }
        ensures store { store_of result ≡ store }
        ensures holds { (requests : List Request) → firsts requests ≡ requests → HasRequests S.Store store requests
            → HoldsRequests S.Store result requests }
        ensures moment { moment_of result ≡ 0 }
        ensures up { has_stopped result ≡ false }
    {
        Intake {
            alloc,
            store,
            limit: Limit { keys: limit },
            moment: Moment::at(0),
            is_down: false,
            cache: None,
        }
    }

    /// The register.
    pub fn into_store(self) -> Store<S>
        ensures { result ≡ store_of self }
    {
        let Intake {
            alloc: _,
            store,
            limit: _,
            moment: _,
            is_down: _,
            cache: _,
        } = self;
        store
    }

    /// How many requests the register keeps.
    pub fn kept(&self) -> u64
        ensures { result ≡ (store_of self.now).kept }
    {
        self.store.kept_count().unwrap_or(0)
    }

    /// Whether the database refused a call for another cause than memory. Such an intake answers nothing else, until
    /// its register is opened again.
    pub fn is_down(&self) -> bool
        ensures { result ≡ has_stopped self.now }
    {
        self.is_down
    }

    /// Says at which moment the requests came that are submitted from now on. The clock is the caller's: no clause says
    /// that it goes forward.
    pub fn date(&mut self, moment: Moment)
        ensures dated { moment_of self.new ≡ moment.milliseconds }
        ensures holds { (requests : List Request) → HoldsRequests S.Store self.old requests
            → HoldsRequests S.Store self.new requests }
        ensures rest { self.new ≡ record self.old { moment = moment } }
    {
        self.moment = moment;
    }

    /// Decides a request (own rule): the first of a filer and key is judged and kept, whether it is valid or not, and a
    /// later one gets what the first got, or that the key was used for another body or to replace another filing. With
    /// a target the report is to replace that filing of the filer, and a finding says so if it can't be replaced. The
    /// filer is a filer code, and the body has at most 1,048,576 bytes. An answer to a filer's key that was kept before
    /// there were problem details is in the old style. A request that is kept has the moment that `date` said last.
    pub fn submit(
        &mut self,
        filer: &str,
        target: Option<u64>,
        key: &KeyText,
        body: &[u8],
    ) -> Result<Answer, Unavailable>
        requires filer { is_filer filer.now ≡ true }
        requires target { IsTarget target }
        requires body { length body.now ≤ max_body_len }
        ensures decides { DecidesRequest S.Store (the_request filer.now key.now target body.now) self.old self.new
            result }
        ensures dates { DatesRequest S.Store (the_request filer.now key.now target body.now) (moment_of self.old)
            self.old self.new result }
    {
        let request = Request {
            filer,
            key,
            target,
            body,
        };
        self.submit_request(&request, self.moment)
    }

    /// As `submit`, of a request as one value, which came at this moment.
    fn submit_request(
        &mut self,
        request: &Request<'_>,
        moment: Moment,
    ) -> Result<Answer, Unavailable>
        requires { IsRequest request.now }
        ensures decides { DecidesRequest S.Store request.now self.old self.new result }
        ensures dates { DatesRequest S.Store request.now moment.milliseconds self.old self.new result }
    {
        if self.is_down {
            return Err(Unavailable::Down);
        }
        let result = self.decide(request, moment);
        self.is_down = store_failed(&result);
        result
    }
}

impl<S: Alter> Intake<S> {
    ghost use Rattle.intake_core.specs.Calls.{TellsOfRequests};

    /// The filings of a filer, ascending by number. Never answers `Full`.
    pub fn list(&mut self, filer: &str) -> Result<Vec<FilingRow>, Unavailable>
        ensures { TellsOfRequests S.Store self.old self.new result (λ requests rows.
            map view_row rows.items ≡ listings filer.now None (register requests)) }
    {
        if self.is_down {
            return Err(Unavailable::Down);
        }
        let result = self.store.filings(filer);
        self.is_down = matches!(result, Err(StoreFault::Store));
        Ok(result?)
    }

    /// The filer's filing of this number as `list` has it, or `None` if the filer has no such filing. Never answers
    /// `Full`.
    pub fn filing(&mut self, filer: &str, number: u64) -> Result<Option<FilingRow>, Unavailable>
        ensures { TellsOfRequests S.Store self.old self.new result (λ requests row.
            map view_row (option_to_list row) ≡ listings filer.now (Some number) (register requests)) }
    {
        if self.is_down {
            return Err(Unavailable::Down);
        }
        let result = self.store.filing(filer, number);
        self.is_down = matches!(result, Err(StoreFault::Store));
        Ok(result?)
    }

    /// The registered requests under their numbers, ascending. Never answers `Full`.
    pub fn register(&mut self) -> Result<Vec<Registered>, Unavailable>
        ensures { TellsOfRequests S.Store self.old self.new result (λ requests rows.
            rows.items ≡ register requests) }
    {
        if self.is_down {
            return Err(Unavailable::Down);
        }
        let result = self.store.all_filings();
        self.is_down = matches!(result, Err(StoreFault::Store));
        Ok(result?)
    }
}

impl<S: Alter> Intake<S> {
    ghost use Rattle.intake_core.specs.Answered.{IsAnswerTo};
    ghost use Rattle.intake_core.specs.Cache.{IsKeptIn, IsNameIfAny};
    ghost use Rattle.intake_core.specs.Calls.{AnswersIf, IsRequest, TellsIfFree};
    ghost use Rattle.intake_core.specs.Held.{store_of, limit_of, old_style_in, has_stopped, shows};
    ghost use Rattle.intake_core.specs.Held.{HoldsRequests, ForRequests, ChangesOnlyCache};
    ghost use Rattle.intake_core.specs.Moments.{DatesIf, KeepsMoments};
    ghost use Rattle.intake_core.specs.Together.{LooksUp};

    /// The answer to a request whose filer and key have this name, if the cache remembers it. The cache is made here,
    /// if there is memory for it.
    fn recall(&mut self, request: &Request<'_>, name: &Option<String>) -> Option<Answer>
        ensures answer { (requests : List Request) → HoldsRequests S.Store self.old requests
            → IsNameIfAny request.now name.now
            → IfSome result (λ a. IsAnswerTo (old_style_in self.old requests) requests request.now a
            × (has_key requests request.now ≡ true)) }
        ensures same { (requests : List Request) → HoldsRequests S.Store self.old requests
            → HoldsRequests S.Store self.new requests }
        ensures rest { ChangesOnlyCache self.old self.new }
    {
        match (&mut self.cache, name) {
            (Some(cache), Some(name)) => cache.recall(self.alloc, name.as_str(), request),
            (Some(_), None) => None,
            (None, _) => {
                self.cache = Cache::new(self.alloc).ok();
                None
            }
        }
    }

    /// Remembers a kept request under the name of its filer and key, if they have one.
    fn remember(
        &mut self,
        request: &Request<'_>,
        name: Option<String>,
        outcome: &Outcome,
        style: Style,
    )
        ensures same { (requests : List Request) → HoldsRequests S.Store self.old requests
            → IsNameIfAny request.now name
            → IsKeptIn requests (record { request = request.now; outcome = view_outcome outcome.now })
            → style ≡ style_of (old_style_in self.old requests) request.now
            → HoldsRequests S.Store self.new requests }
        ensures rest { ChangesOnlyCache self.old self.new }
    {
        if let (Some(cache), Some(name)) = (&mut self.cache, name) {
            cache.remember(self.alloc, name, request, outcome, style);
        }
    }

    /// Decides a request that came at this moment.
    fn decide(&mut self, request: &Request<'_>, moment: Moment) -> Result<Answer, Unavailable>
        requires { IsRequest request.now }
        ensures decided { AnswersIf S.Store request.now (Unit {0}) (λ _. Unit {0}) self.old self.new result }
        ensures dated { DatesIf S.Store request.now moment.milliseconds (Unit {0}) (λ _. Unit {0}) self.old self.new
            result }
        ensures is_open { ForRequests S.Store self.old self.new (λ requests.
            IsTrue (shows S.Store self.old).is_open ⊎ (has_key requests request.now ≡ false)
            → OnOk result (IsTrue (shows S.Store self.new).is_open)) }
        ensures full { ForRequests S.Store self.old self.new (λ requests. (k : ℕ) → result ≡ Err (Full k)
            → (has_key requests request.now ≡ false) × (limit_of self.old ≤ k) × (k ≡ length requests)) }
        ensures room { ForRequests S.Store self.old self.new (λ requests.
            OnOk result (has_key requests request.now ≡ false → length requests < limit_of self.old)) }
    {
        match self.answer_repeat(request)? {
            Some(answer) => Ok(answer),
            None => self.keep(request, moment),
        }
    }

    /// What a request gets if one of its filer and key is kept, by the cache or else by the register.
    fn answer_repeat(&mut self, request: &Request<'_>) -> Result<Option<Answer>, StoreFault>
        ensures new { ForRequests S.Store self.old self.new (λ requests. IfOk result (λ found. found ≡ None
            → (has_key requests request.now ≡ false) × IsTrue (shows S.Store self.new).is_open)) }
        ensures repeat { ForRequests S.Store self.old self.new (λ requests. IfOk result (λ found. IfSome found
            (λ answer. IsAnswerTo (old_style_in self.old requests) requests request.now answer
            × (has_key requests request.now ≡ true)))) }
        ensures is_open { ForRequests S.Store self.old self.new (λ requests. IsTrue (shows S.Store self.old).is_open
            → OnOk result (IsTrue (shows S.Store self.new).is_open)) }
        ensures looks { LooksUp S.Store self.old self.new }
    {
        let name = name_of(self.alloc, request).ok();
        if let Some(answer) = self.recall(request, &name) {
            return Ok(Some(answer));
        }
        self.find_repeat(request, name)
    }

    /// What a request gets if one of its filer and key, which have this name, is kept by the register.
    fn find_repeat(
        &mut self,
        request: &Request<'_>,
        name: Option<String>,
    ) -> Result<Option<Answer>, StoreFault>
        requires { IsNameIfAny request.now name }
        ensures new { ForRequests S.Store self.old self.new (λ requests. IfOk result (λ found. found ≡ None
            → has_key requests request.now ≡ false)) }
        ensures repeat { ForRequests S.Store self.old self.new (λ requests. IfOk result (λ found. IfSome found
            (λ answer. IsAnswerTo (old_style_in self.old requests) requests request.now answer
            × (has_key requests request.now ≡ true)))) }
        ensures is_open { ForRequests S.Store self.old self.new (λ _.
            OnOk result (IsTrue (shows S.Store self.new).is_open)) }
        ensures looks { LooksUp S.Store self.old self.new }
    {
        match self.store.find(request.filer, request.key)? {
            Some(row) => Ok(Some(self.repeat(request, name, row))),
            None => Ok(None),
        }
    }

    /// Answers a request whose filer and key are kept with this row.
    fn repeat(&mut self, request: &Request<'_>, name: Option<String>, row: KeptRow) -> Answer
        ensures answer { (view_answer result
            ≡ answer_from (Some (kept_as request.now.filer request.now.key row)) request.now true)
            × HasStyle row.style result }
        ensures same { (requests : List Request) → HoldsRequests S.Store self.old requests
            → IsNameIfAny request.now name → IsKeptIn requests (kept_as request.now.filer request.now.key row)
            → row.style ≡ style_of (old_style_in self.old requests) request.now
            → HoldsRequests S.Store self.new requests }
        ensures rest { ChangesOnlyCache self.old self.new }
    {
        let first = Request {
            target: row.target,
            body: row.body.as_slice(),
            ..*request
        };
        self.remember(&first, name, &row.outcome, row.style);
        if first.asks_the_same(request) {
            answer_by(row.outcome, true, row.style)
        } else {
            Answer::KeyReused { style: row.style }
        }
    }

    /// Whether the filing that a request names may be replaced. A request that names none is free.
    fn is_free(&mut self, request: &Request<'_>) -> Result<bool, Unavailable>
        ensures tells { TellsIfFree S.Store request.now self.old self.new result }
        ensures moments { KeepsMoments S.Store self.old self.new }
    {
        match request.target {
            None => Ok(true),
            Some(number) => Ok(self.store.replaceable(request.filer, number)?),
        }
    }

    /// Adds a judged request to the register, whether its report is valid or not.
    fn add(&mut self, row: &NewRow<'_>) -> Result<Outcome, StoreFault>
        requires filer { is_filer row.now.filer.now ≡ true }
        requires body { length row.now.body.now ≤ max_body_len }
        requires target { IsTarget row.now.target }
        requires facts { HasFacts row.now.body.now row.now.judged.now }
        requires room { (store_of self.old).kept < 2 ^ 62 }
        ensures added { AddsRequest S.Store row.now (store_of self.old) (store_of self.new) result }
        ensures moments { AddsMoments S.Store (row.now ∷ []) (store_of self.old) (store_of self.new) result }
        ensures rest { (self.new.cache ≡ self.old.cache) × (limit_of self.new ≡ limit_of self.old)
            × (has_stopped self.new ≡ has_stopped self.old) × (self.new.moment ≡ self.old.moment) }
    {
        self.store.add(row)
    }

    /// Judges and keeps the first request under a key; `free` says whether the filing that it names may be replaced.
    fn keep_judged(
        &mut self,
        request: &Request<'_>,
        moment: Moment,
        free: bool,
    ) -> Result<Answer, Unavailable>
        requires request { IsRequest request.now }
        requires room { (store_of self.old).kept < 2 ^ 62 }
        ensures kept { AnswersIf S.Store request.now (IsTrue (shows S.Store self.old).is_open) (λ requests.
            (has_key requests request.now ≡ false)
            × (free ≡ is_free (register requests) request.now.filer request.now.target)) self.old self.new result }
        ensures dated { DatesIf S.Store request.now moment.milliseconds (IsTrue (shows S.Store self.old).is_open)
            (λ requests. (has_key requests request.now ≡ false)
            × (free ≡ is_free (register requests) request.now.filer request.now.target)) self.old self.new result }
        ensures is_open { ForRequests S.Store self.old self.new (λ requests. (has_key requests request.now ≡ false)
            → (free ≡ is_free (register requests) request.now.filer request.now.target)
            → OnOk result (IsTrue (shows S.Store self.new).is_open)) }
        ensures full { (k : ℕ) → result ≢ Err (Full k) }
    {
        let judged = judge_amendment(self.alloc, request.filer, request.body, free)?;
        let outcome = self.add(&NewRow {
            filer: request.filer,
            key: request.key,
            target: request.target,
            body: request.body,
            judged: &judged,
            moment,
        })?;
        let name = name_of(self.alloc, request).ok();
        self.remember(request, name, &outcome, Style::Problem);
        Ok(answer_by(outcome, false, Style::Problem))
    }

    /// Judges and keeps the first request under a key, if there is room.
    fn keep(&mut self, request: &Request<'_>, moment: Moment) -> Result<Answer, Unavailable>
        requires { IsRequest request.now }
        ensures kept { AnswersIf S.Store request.now (IsTrue (shows S.Store self.old).is_open)
            (λ requests. has_key requests request.now ≡ false) self.old self.new result }
        ensures dated { DatesIf S.Store request.now moment.milliseconds (IsTrue (shows S.Store self.old).is_open)
            (λ requests. has_key requests request.now ≡ false) self.old self.new result }
        ensures is_open { ForRequests S.Store self.old self.new (λ requests. has_key requests request.now ≡ false
            → OnOk result (IsTrue (shows S.Store self.new).is_open)) }
        ensures full { (requests : List Request) → HoldsRequests S.Store self.old requests → (k : ℕ)
            → result ≡ Err (Full k) → (limit_of self.old ≤ k) × (k ≡ length requests) }
        ensures room { (requests : List Request) → HoldsRequests S.Store self.old requests
            → OnOk result (length requests < limit_of self.old) }
    {
        let kept = self.store.kept_count()?;
        if kept >= self.limit.keys {
            return Err(Unavailable::Full { kept });
        }
        let free = self.is_free(request)?;
        self.keep_judged(request, moment, free)
    }
}
