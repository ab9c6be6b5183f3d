//! What waits to be kept with one commit.

ghost use Rattle.std.specs.Prelude.{◌≡◌, ◌<◌, IsTrue, true, false};
ghost use Rattle.gateway_rounds.specs.Groups.{HasRoom, IsFull};

use key_string::KeyText;

/// How many requests are kept with one commit at most.
pub(crate) const MOST_FILED: usize = 64;

/// How many bytes the bodies of requests have at most that are kept with one commit.
const MOST_BYTES: usize = 4_194_304;

/// What is asked for in a place and waits to be kept. Its body stays where it came.
#[derive(Drop)]
pub(crate) struct New {
    pub(crate) place: usize,
    pub(crate) filer: String,
    pub(crate) target: Option<u64>,
    pub(crate) key: KeyText,
    /// The length of its body.
    pub(crate) len: usize,
    /// Whether its connection closes after the reply.
    pub(crate) closes: bool,
    /// Whether it was looked up, and is the first of its filer and key.
    pub(crate) is_new: bool,
}

/// Whether there is no room in a group for a body of so many bytes.
pub(crate) fn is_full(group: &[New], len: usize) -> bool
    ensures full { IsTrue result → IsFull group.now len }
    ensures room { result ≡ false → HasRoom group.now len }
{
    if group.len() >= MOST_FILED {
        return true;
    }
    if len > MOST_BYTES {
        return true;
    }
    let mut room = MOST_BYTES - len;
    for at in 0..group.len() {
        let more = group[at].len;
        if more > room {
            return true;
        }
        room -= more;
    }
    false
}
