//! Room that is lent to a connection for a long request.
ghost use Rattle.std.specs.Prelude.{◌≡◌, ◌+◌, min, nat_le};
ghost use Rattle.connection_hall.specs.Loans.{term_of};

/// For how many milliseconds a loan is held if no bytes come, and for how many more for each part of so many that come.
const FIRST_TERM: u64 = 5_000;

const MORE_TERM: u64 = 1_000;

const PART: usize = 65_536;

/// A loan: when room was lent to a connection, and how many bytes it held then.
#[derive(Clone, Copy)]
pub(crate) struct Loan {
    pub(crate) since: u64,
    pub(crate) held: usize,
}

impl Loan {
    /// Up to which moment the loan is held while others are short of one, if the connection holds so many bytes by now:
    /// for five seconds, and for one more for each 64 KiB that came since.
    pub(crate) fn term(&self, held: usize) -> u64
        ensures { result ≡ min (term_of self.now held) 18446744073709551615 }
    {
        self.since.saturating_add(self.term_len(held))
    }

    /// Whether the term has passed by now.
    pub(crate) fn has_passed(&self, held: usize, now: u64) -> bool
        ensures { result ≡ nat_le (term_of self.now held) now }
    {
        self.since <= now && self.term_len(held) <= now - self.since
    }

    /// For how many milliseconds it is held while others are short of one.
    fn term_len(&self, held: usize) -> u64
        ensures { self.now.since + result ≡ term_of self.now held }
    {
        let parts = held.saturating_sub(self.held) / PART;
        FIRST_TERM + MORE_TERM * parts as u64
    }
}
