//! How many connections have a loan of room, and whether others are short of one.
ghost use Rattle.std.specs.Prelude.{◌≡◌, ◌<◌, ◌≤◌, ◌+◌, ◌-◌, ℕ, true, false};
ghost use Rattle.connection_hall.specs.Rounds.{KeepsTurns};

use crate::round::Round;

/// The loans of a hall. Nobody else gives one, or takes one back.
#[derive(Drop)]
pub(crate) struct Loans {
    /// How many connections have one.
    lent: usize,
    /// How many may.
    most: usize,
    /// Whether one was refused since the last came back.
    is_short: bool,
    ghost few: { lent ≤ most },
}

impl Loans {
    ghost use Rattle.connection_hall.specs.Lending.{lent, most_lent, is_short};
    ghost use Rattle.connection_hall.specs.Rounds.{has_turn, count};

    /// No loan, and so many may be given.
    pub(crate) fn new(most: usize) -> Loans
        ensures lent { lent result ≡ 0 }
        ensures most { most_lent result ≡ most }
        ensures short { is_short result ≡ false }
    {
        Loans {
            lent: 0,
            most,
            is_short: false,
        }
    }

    /// Gives a loan, if one is left. Otherwise somebody is short of one until one comes back.
    pub(crate) fn lend(&mut self) -> bool
        ensures given { result ≡ true → lent self.new ≡ lent self.old + 1 }
        ensures short { result ≡ true → is_short self.new ≡ is_short self.old }
        ensures most { most_lent self.new ≡ most_lent self.old }
        ensures refused { result ≡ false → self.new ≡ record self.old { is_short = true } }
        ensures all_lent { result ≡ false → lent self.old ≡ most_lent self.old }
    {
        if self.lent == self.most {
            self.is_short = true;
            return false;
        }
        self.lent += 1;
        true
    }

    /// Takes a loan back. If somebody is short of one, each place has its turn then.
    pub(crate) fn give_back(&mut self, round: &mut Round)
        ensures fewer { lent self.new ≡ lent self.old - 1 }
        ensures most { most_lent self.new ≡ most_lent self.old }
        ensures none_short { is_short self.new ≡ false }
        ensures woken { is_short self.old ≡ true → (i : ℕ) → i < count round.old → has_turn round.new i ≡ true }
        ensures turns { KeepsTurns round.old round.new }
    {
        self.lent = self.lent.saturating_sub(1);
        if self.is_short {
            round.call_all();
            self.is_short = false;
        }
    }

    /// Whether a loan was refused since the last came back.
    pub(crate) fn is_short(&self) -> bool
        ensures { result ≡ is_short self.now }
    {
        self.is_short
    }
}
