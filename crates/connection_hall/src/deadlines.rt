//! Until when peers are waited for.
ghost use Rattle.std.specs.Prelude.{◌≡◌, ◌<◌, ◌≤◌, ◌+◌, ℕ, Option, true, false, None, IfSome, IfNone};
ghost use Rattle.connection_hall.specs.Deadlines.{Awaits, has_passed, patience};

/// For how long peers are waited for, and when the next of them may have been.
#[derive(Clone, Copy)]
pub(crate) struct Deadlines {
    /// For how many milliseconds a peer is waited for; no limit if none is given.
    patience: Option<u64>,
    /// No deadline that was noted is before this moment; none was if there is none.
    soonest: Option<u64>,
}

impl Deadlines {
    /// No deadline.
    pub(crate) fn new(limit: Option<u64>) -> Deadlines
        ensures { patience result ≡ limit }
    {
        Deadlines {
            patience: limit,
            soonest: None,
        }
    }

    /// Whether a peer that is waited for since this moment was waited for as long as the patience is.
    pub(crate) fn has_passed(&self, since: Option<u64>, now: u64) -> bool
        ensures { result ≡ has_passed (patience self.now) since now }
    {
        let (Some(patience), Some(since)) = (self.patience, since) else {
            return false;
        };
        since <= now && patience <= now - since
    }

    /// Notes the deadline of a peer that is waited for since this moment, if it is waited for.
    pub(crate) fn note(&mut self, since: Option<u64>)
        ensures noted { Awaits self.new since }
        ensures others { (other : Option ℕ) → Awaits self.old other → Awaits self.new other }
        ensures patience { patience self.new ≡ patience self.old }
    {
        let (Some(patience), Some(since)) = (self.patience, since) else {
            return;
        };
        let deadline = since.saturating_add(patience);
        self.soonest = Some(match self.soonest {
            Some(soonest) => soonest.min(deadline),
            None => deadline,
        });
    }

    /// Forgets the deadlines that were noted, if one of them may have passed. Each is to be noted anew then.
    pub(crate) fn begin_anew(&mut self, now: u64) -> bool
        ensures kept { result ≡ false → self.new ≡ self.old }
        ensures passed { result ≡ false → (since : Option ℕ) → Awaits self.old since
            → has_passed (patience self.old) since now ≡ false }
        ensures patience { patience self.new ≡ patience self.old }
    {
        match self.soonest {
            Some(soonest) if soonest <= now => {
                self.soonest = None;
                true
            }
            _ => false,
        }
    }

    /// A moment before which no deadline passes that was noted.
    pub(crate) fn soonest(&self) -> Option<u64>
        ensures first { IfSome result (λ first. (since : Option ℕ) → Awaits self.now since → (now : ℕ) → now < first
            → has_passed (patience self.now) since now ≡ false) }
        ensures none { IfNone result ((since : Option ℕ) → Awaits self.now since → (now : ℕ)
            → has_passed (patience self.now) since now ≡ false) }
    {
        self.soonest
    }
}
