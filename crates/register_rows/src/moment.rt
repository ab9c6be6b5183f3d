//! The moment at which a request came.

ghost use Rattle.std.specs.Prelude.{◌≡◌, ◌≤◌, min};
ghost use Rattle.register_rows.specs.Received.{IsMoment, max_moment};

/// A moment in milliseconds since 1970-01-01T00:00:00Z, as POSIX counts them, at most the last one of the year 9999.
#[derive(Clone, Copy, Debug, PartialEq, Eq, PartialOrd, Ord)]
pub struct Moment {
    pub milliseconds: u64,
    ghost within: { milliseconds ≤ 253402300799999 },
}

/// The last moment of the year 9999.
pub(crate) const LAST: u64 = 253402300799999;

impl Moment {
    /// So many milliseconds after the beginning of 1970, or the last moment of the year 9999 if that is earlier.
    pub fn at(milliseconds: u64) -> Moment
        ensures { result.milliseconds ≡ min milliseconds max_moment }
    {
        Moment {
            milliseconds: if milliseconds <= LAST {
                milliseconds
            } else {
                LAST
            },
        }
    }

    /// The milliseconds since the beginning of 1970.
    pub fn milliseconds(self) -> u64
        ensures is { result ≡ self.milliseconds }
        ensures within { IsMoment result }
    {
        self.milliseconds
    }
}
