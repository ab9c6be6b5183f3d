//! The connection of a client that comes, goes and stops as a table says.

ghost use Rattle.std.specs.Prelude.{◌≡◌, ◌≢◌, ◌≤◌, None, false, length};
ghost use Rattle.connection_hall.specs.Streams.{got_len, took_len};
ghost use Rattle.connection_hall.specs.declared.stream.Got.TheVariants as got;

use super::texts::{Asks, Gets};
use connection_hall::{Broken, Got, Stream, Why};
use example_texts::front;
use gateway_rounds::Note;
use std::io::Read;

/// A client, and what comes of its connection.
#[derive(Clone, Copy)]
pub struct Client {
    /// How many of it come, one after another.
    pub times: u32,
    /// What it asks for, one after another.
    pub asks: &'static [Asks],
    /// How many bytes of that it sends.
    pub sends: usize,
    /// How many reads find nothing before its first byte, and how many bytes come at a time then.
    pub waits: u32,
    pub a_read: usize,
    /// If it stops once: after how many bytes, and how many have to be written to it before it goes on.
    pub stop: Option<(usize, usize)>,
    /// Whether it keeps silent after its last byte, and does not end.
    pub stays: bool,
    /// How many writes take nothing at first, and how many bytes each takes then.
    pub deaf: u32,
    pub a_write: usize,
    /// How many bytes are written to it before its connection is reset, if that is.
    pub reset: Option<usize>,
    /// What it gets, as far as its connection is not reset.
    pub gets: &'static [Gets],
    /// Why its connection is over, and how often each may have had its turn until then.
    pub why: Why,
    pub rounds: u64,
}

/// Sends what it asks for at once and then its end, and takes all that it gets.
pub const PLAIN: Client = Client {
    times: 1,
    asks: &[Asks::Files(1)],
    sends: usize::MAX,
    waits: 0,
    a_read: usize::MAX,
    stop: None,
    stays: false,
    deaf: 0,
    a_write: usize::MAX,
    reset: None,
    gets: &[],
    why: Why::Done,
    rounds: 3,
};

/// Sends nothing, and does not end. Its patience of 1,000 rounds begins in the first.
pub const IDLE: Client = Client {
    asks: &[],
    stays: true,
    why: Why::Late,
    rounds: 1_001,
    ..PLAIN
};

/// What a client sends and takes. After each read that gives something one finds nothing, so that the others have
/// their turn.
#[derive(Drop)]
pub struct ClientLine {
    /// The place under which it is watched.
    place: usize,
    client: Client,
    /// The number of the client, from 1.
    pub number: u32,
    text: Vec<u8>,
    /// How many bytes were read.
    read: usize,
    /// How many reads find nothing before the next byte.
    rests: u32,
    deaf: u32,
    pub written: Vec<u8>,
    is_idle: bool,
    is_ended: bool,
    is_stuck: bool,
    is_broken: bool,
}

impl ClientLine {
    /// The connection of a client that asks by this text.
    pub fn new(
        place: usize,
        client: &Client,
        number: u32,
        text: Vec<u8>,
        written: Vec<u8>,
    ) -> ClientLine
        ensures place { result.place ≡ place }
        ensures ended { result.is_ended ≡ false }
    {
        ClientLine {
            place,
            client: *client,
            number,
            text,
            read: 0,
            rests: client.waits,
            deaf: client.deaf,
            written,
            is_idle: false,
            is_ended: false,
            is_stuck: false,
            is_broken: false,
        }
    }

    /// Up to which byte of its text it goes on.
    fn until(&self) -> usize {
        let all = self.client.sends.min(self.text.len());
        match self.client.stop {
            Some((at, due)) if self.read < at || self.written.len() < due => at.min(all),
            _ => all,
        }
    }

    /// Whether all was sent, and the end comes.
    fn is_over(&self) -> bool {
        !self.client.stays && self.read >= self.client.sends.min(self.text.len())
    }

    /// Reads what is there.
    fn get(&mut self, room: &mut [u8]) -> Got
        ensures count { got_len result ≤ length room.new }
        ensures some { result ≢ got.Bytes 0 }
        ensures place { self.new.place ≡ self.old.place }
        ensures stuck { self.new.is_stuck ≡ self.old.is_stuck }
        ensures broken { self.new.is_broken ≡ self.old.is_broken }
    {
        if self.rests > 0 {
            self.rests -= 1;
            return Got::Nothing;
        }
        if self.is_over() {
            return Got::End;
        }
        let rest = self.text.get(self.read..self.until()).unwrap_or(&[]);
        let mut piece = front(rest, self.client.a_read);
        match piece.read(room) {
            Ok(0) => Got::Nothing,
            Ok(count) => {
                self.read = self.read.saturating_add(count);
                self.rests = 1;
                Got::Bytes(count)
            }
            Err(_) => Got::End,
        }
    }

    /// Takes what goes.
    fn take(&mut self, text: &[u8]) -> Result<usize, Broken>
        ensures count { took_len result ≤ length text.now }
        ensures place { self.new.place ≡ self.old.place }
        ensures idle { self.new.is_idle ≡ self.old.is_idle }
        ensures ended { self.new.is_ended ≡ self.old.is_ended }
    {
        if self.deaf > 0 {
            self.deaf -= 1;
            return Ok(0);
        }
        let mut count = self.client.a_write.min(text.len());
        if let Some(reset) = self.client.reset {
            let left = reset.saturating_sub(self.written.len());
            if left == 0 {
                return Err(Broken);
            }
            count = count.min(left);
        }
        match self.written.extend_from_slice(&text[..count]) {
            Ok(()) => Ok(count),
            Err(_) => Ok(0),
        }
    }
}

impl Stream for ClientLine {
    type Note = Note;

    ghost place = { λ line. line.place };

    ghost came = { λ _. None };

    ghost went = { λ _. None };

    ghost is_idle = { λ line. line.is_idle };

    ghost is_ended = { λ line. line.is_ended };

    ghost is_stuck = { λ line. line.is_stuck };

    ghost is_broken = { λ line. line.is_broken };

    fn read(&mut self, room: &mut [u8]) -> Got {
        let got = self.get(room);
        self.is_idle = got == Got::Nothing;
        self.is_ended = got == Got::End;
        got
    }

    fn write(&mut self, text: &[u8]) -> Result<usize, Broken> {
        let taken = self.take(text);
        self.is_stuck = match taken {
            Ok(count) => count < text.len(),
            Err(Broken) => !text.is_empty(),
        };
        self.is_broken = taken.is_err();
        taken
    }

    fn note(&mut self, _note: &Note) {}
}
