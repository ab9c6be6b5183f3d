//! A cache of answers: what the tables would answer, for the requests that came last.

ghost use Rattle.std.specs.Prelude.{◌≡◌, true, List, IfOk, IfSome, Some, string_bytes};
ghost use Rattle.filing_model.specs.declared.served.Style.{Style};
ghost use Rattle.filing_model.specs.Request.{Request, has_key};
ghost use Rattle.filing_model.specs.Answer.{answer_by, answer_from};
ghost use Rattle.filing_model.specs.Style.{style_of, HasStyle};
ghost use Rattle.filing_model.specs.Views.{view_answer, view_outcome};
ghost use Rattle.intake_core.specs.Answered.{IsAnswerTo};
ghost use Rattle.intake_core.specs.Cache.{kept_of, IsKeptIn, IsNameOf, Remembers};

use crate::request::Request;
use filing_model::{Answer, Outcome, Style};
use lru::LruCache;
use std::alloc::{AllocError, Global};
use std::num::NonZeroUsize;

/// How many requests are remembered.
const CAPACITY: usize = 64;

/// The most bytes of a body that is remembered.
const MAX_CACHED_LEN: usize = 65_536;

/// What is remembered of a kept request beside its filer and key, with its outcome and its style.
#[derive(Drop)]
pub(crate) struct Remembered {
    target: Option<u64>,
    body: Vec<u8>,
    outcome: Outcome,
    style: Style,
}

impl Remembered {
    fn new(
        alloc: Global,
        request: &Request<'_>,
        outcome: &Outcome,
        style: Style,
    ) -> Result<Remembered, AllocError>
        ensures { IfOk result (λ r.
            (kept_of request.now.filer request.now.key r ≡ record {
              request = request.now;
              outcome = view_outcome outcome.now;
            })
            × (r.style ≡ style)) }
    {
        Ok(Remembered {
            target: request.target,
            body: Vec::from_slice(alloc, request.body)?,
            outcome: copied(alloc, outcome)?,
            style,
        })
    }

    /// The answer to a request with its filer and key: what the first got, or that the key was used for another body,
    /// in its style.
    fn answer_to(&self, alloc: Global, request: &Request<'_>) -> Result<Answer, AllocError>
        ensures { IfOk result (λ a.
            (view_answer a
            ≡ answer_from (Some (kept_of request.now.filer request.now.key self.now)) request.now true)
            × HasStyle self.now.style a) }
    {
        let first = Request {
            target: self.target,
            body: self.body.as_slice(),
            ..*request
        };
        if !first.asks_the_same(request) {
            return Ok(Answer::KeyReused { style: self.style });
        }
        Ok(answer_by(copied(alloc, &self.outcome)?, true, self.style))
    }
}

/// The last answers, 64 at most, each under the name of its filer's key. The one that was used longest ago goes first.
#[derive(Drop)]
pub struct Cache {
    answers: LruCache<String, Remembered>,
}

impl Cache {
    /// A cache that remembers nothing yet.
    pub fn new(alloc: Global) -> Result<Cache, AllocError>
        ensures { (old_style requests : List Request) → IfOk result (Remembers old_style requests) }
    {
        let capacity = NonZeroUsize::new(CAPACITY).unwrap();
        Ok(Cache {
            answers: LruCache::new(alloc, capacity)?,
        })
    }

    /// The answer to a request whose filer's key has this name, if it is remembered and there is memory for it.
    pub fn recall(&mut self, alloc: Global, name: &str, request: &Request<'_>) -> Option<Answer>
        ensures answer { (old_style requests : List Request) → Remembers old_style requests self.old
            → IsNameOf request.now.filer request.now.key name.now
            → IfSome result (λ a.
            IsAnswerTo old_style requests request.now a × (has_key requests request.now ≡ true)) }
        ensures same { (old_style requests : List Request) → Remembers old_style requests self.old
            → Remembers old_style requests self.new }
    {
        self.answers.get(name)?.answer_to(alloc, request).ok()
    }

    /// Remembers a kept request under the name of its filer's key, if its body has at most 65,536 bytes and there is
    /// memory for it.
    pub fn remember(
        &mut self,
        alloc: Global,
        name: String,
        request: &Request<'_>,
        outcome: &Outcome,
        style: Style,
    )
        ensures { (old_style requests : List Request) → Remembers old_style requests self.old
            → IsNameOf request.now.filer request.now.key (string_bytes name)
            → IsKeptIn requests (record { request = request.now; outcome = view_outcome outcome.now })
            → style ≡ style_of old_style request.now
            → Remembers old_style requests self.new }
    {
        if request.body.len() > MAX_CACHED_LEN {
            return;
        }
        // If there is no memory, the request is not remembered.
        if let Ok(remembered) = Remembered::new(alloc, request, outcome, style) {
            let _ = self.answers.put(name, remembered);
        }
    }
}

/// The name of a request's filer and key. No key has a line feed, so no other filer's key has this name.
pub fn name_of(alloc: Global, request: &Request<'_>) -> Result<String, AllocError>
    ensures { IfOk result (λ name. IsNameOf request.now.filer request.now.key (string_bytes name)) }
{
    let filer = request.filer;
    let key = request.key.as_str();
    let length = filer.len().saturating_add(key.len()).saturating_add(1);
    let mut name = String::with_capacity(alloc, length)?;
    name.push_str(key)?;
    name.push_str("\n")?;
    name.push_str(filer)?;
    Ok(name)
}

/// A copy of an outcome.
fn copied(alloc: Global, outcome: &Outcome) -> Result<Outcome, AllocError>
    ensures { IfOk result (λ o. view_outcome o ≡ view_outcome outcome.now) }
{
    Ok(match outcome {
        Outcome::Registered(number) => Outcome::Registered(*number),
        Outcome::Refused(findings) => Outcome::Refused(findings.copied(alloc)?),
    })
}

/// The answer that an outcome gives, to its own request or to a repeat, in this style; a number has none.
pub fn answer_by(outcome: Outcome, repeat: bool, style: Style) -> Answer
    ensures { (view_answer result ≡ answer_by (view_outcome outcome) repeat) × HasStyle style result }
{
    match outcome {
        Outcome::Registered(number) => Answer::Registered { number, repeat },
        Outcome::Refused(findings) => Answer::Refused {
            findings,
            repeat,
            style,
        },
    }
}
