//! Where connections come, and when they may go on.
ghost use Rattle.std.specs.Prelude.{◌≡◌, ℕ, List, Option, option_map};
ghost use Rattle.connection_hall.specs.Comings.{Traffic, Arrives, one_over};

use crate::stream::Stream;
use crate::why::Why;
use std::io;
use std::time::Duration;

/// The connections of this machine, or a stand-in for it. Which of them come and may go on, and when, is up to whoever
/// implements this, and whether one that may go on has anything to do.
pub trait Sockets {
    type Stream: Stream + Drop;

    // How many connections came, and which are over, if that is known.
    ghost traffic: { Self → Option (Traffic Self.Stream) };

    // The places whose connections may go on, as the system said when it was asked last.
    ghost named: { Self → List ℕ };

    // How many milliseconds had passed since some moment when the system was asked last.
    ghost clock: { Self → ℕ };

    /// Begins to listen. No connection comes before that.
    fn listen(&mut self) -> io::Result<()>
        ensures { traffic self.new ≡ traffic self.old };

    /// A connection for this place, if one came. It is watched under the number of the place from then on.
    fn accept(&mut self, place: usize) -> io::Result<Option<Self::Stream>>
        ensures came { Arrives Self.Stream.Stream place (traffic self.old) (traffic self.new) result }
        ensures named { named self.new ≡ named self.old }
        ensures clock { clock self.new ≡ clock self.old };

    /// Asks the system which connections may go on, and waits up to so long for one. `named` says which.
    fn ask(&mut self, wait: Duration) -> io::Result<()>
        ensures { traffic self.new ≡ traffic self.old };

    /// The places of the connections that may go on, as the system said when it was asked last.
    fn named(&self) -> &[usize]
        ensures { result.now ≡ named self.now };

    /// How many milliseconds had passed since some moment when the system was asked last.
    fn now(&self) -> u64
        ensures { result ≡ clock self.now };

    /// How many milliseconds passed since 1970-01-01T00:00:00Z by the clock of the system; 0 if it has none. No clause
    /// says that the clock is right, or that it goes forward.
    fn moment(&self) -> u64 {
        0
    }

    /// Takes back a connection that is over, and so many came before.
    fn end(&mut self, stream: Self::Stream, number: u32, why: Why)
        ensures over { traffic self.new ≡ option_map (one_over stream number why) (traffic self.old) }
        ensures named { named self.new ≡ named self.old }
        ensures clock { clock self.new ≡ clock self.old };
}
