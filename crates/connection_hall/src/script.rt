//! Connections in memory that do what a script says.
ghost use Rattle.std.specs.Prelude.{◌≡◌, ◌≢◌, ◌<◌, ◌≤◌, [], ◌++◌, true, false, Some, length, take};
ghost use Rattle.connection_hall.specs.declared.stream.Got.TheVariants.{Bytes, Nothing};
ghost use Rattle.connection_hall.specs.Streams.{got_len, gave_nothing, gave_end};

use crate::stream::{Broken, Got, Stream};
use std::alloc::Global;

/// What a read of a stream comes to.
#[derive(Clone, Copy, Debug)]
pub enum Reads {
    /// These bytes come, as far as there is room; the others never do.
    Gives(&'static [u8]),
    /// Nothing is there now.
    Pauses,
}

/// What a write to a stream comes to.
#[derive(Clone, Copy, Debug)]
pub enum Writes {
    /// So many bytes go, or all if there are fewer.
    Takes(usize),
    /// It fails.
    Breaks,
}

/// A stream whose reads come to these, one after another, and then to its end; and whose writes come to these, and then
/// take all. Without memory to note them, a read finds nothing, and a write takes nothing.
#[derive(Drop)]
pub struct ScriptedStream<'a> {
    place: usize,
    reads: &'a [Reads],
    writes: &'a [Writes],
    pub(crate) came: Vec<u8>,
    pub(crate) went: Vec<u8>,
    pub(crate) is_idle: bool,
    pub(crate) is_ended: bool,
    pub(crate) is_stuck: bool,
    pub(crate) is_broken: bool,
}

impl<'a> ScriptedStream<'a> {
    /// A stream in this place of which nothing was read, and to which nothing was written.
    pub fn new(
        alloc: Global,
        place: usize,
        reads: &'a [Reads],
        writes: &'a [Writes],
    ) -> ScriptedStream<'a>
        ensures place { result.place ≡ place }
        ensures came { result.came.items ≡ [] }
        ensures went { result.went.items ≡ [] }
        ensures ended { result.is_ended ≡ false }
    {
        ScriptedStream {
            place,
            reads,
            writes,
            came: Vec::new(alloc),
            went: Vec::new(alloc),
            is_idle: false,
            is_ended: false,
            is_stuck: false,
            is_broken: false,
        }
    }

    /// Gives these bytes, as far as there is room; finds nothing if there are none.
    fn give(&mut self, bytes: &[u8], room: &mut [u8]) -> Got
        requires { 0 < length room.old }
        ensures bound { got_len result ≤ length room.new }
        ensures some { result ≢ Bytes 0 }
        ensures place { self.new.place ≡ self.old.place }
        ensures came { self.new.came.items ≡ self.old.came.items ++ take (got_len result) room.new }
        ensures went { self.new.went ≡ self.old.went }
        ensures idle { self.new.is_idle ≡ gave_nothing result }
        ensures ended { self.new.is_ended ≡ gave_end result }
        ensures stuck { self.new.is_stuck ≡ self.old.is_stuck }
        ensures broken { self.new.is_broken ≡ self.old.is_broken }
    {
        let count = bytes.len().min(room.len());
        if count == 0 || self.came.extend_from_slice(&bytes[..count]).is_err() {
            return self.pause();
        }
        room[..count].copy_from_slice(&bytes[..count]);
        self.is_idle = false;
        self.is_ended = false;
        Got::Bytes(count)
    }

    /// Finds nothing.
    fn pause(&mut self) -> Got
        ensures got { result ≡ Nothing }
        ensures same { self.new ≡ record self.old { is_idle = true; is_ended = false } }
    {
        self.is_idle = true;
        self.is_ended = false;
        Got::Nothing
    }

    /// What was written to it.
    pub fn went(&self) -> &[u8]
        ensures { result.now ≡ self.now.went.items }
    {
        self.went.as_slice()
    }
}

impl<'a> Stream for ScriptedStream<'a> {
    type Note = ();

    ghost place = { λ stream. stream.place };

    ghost came = { λ stream. Some stream.came.items };

    ghost went = { λ stream. Some stream.went.items };

    ghost is_idle = { λ stream. stream.is_idle };

    ghost is_ended = { λ stream. stream.is_ended };

    ghost is_stuck = { λ stream. stream.is_stuck };

    ghost is_broken = { λ stream. stream.is_broken };

    fn read(&mut self, room: &mut [u8]) -> Got {
        if let Some((first, more)) = self.reads.split_first() {
            self.reads = more;
            return match *first {
                Reads::Gives(bytes) => self.give(bytes, room),
                Reads::Pauses => self.pause(),
            };
        }
        self.is_idle = false;
        self.is_ended = true;
        Got::End
    }

    fn write(&mut self, text: &[u8]) -> Result<usize, Broken> {
        let mut count = text.len();
        if let Some((first, more)) = self.writes.split_first() {
            self.writes = more;
            match *first {
                Writes::Takes(most) => count = count.min(most),
                Writes::Breaks => {
                    self.is_broken = true;
                    self.is_stuck = !text.is_empty();
                    return Err(Broken);
                }
            }
        }
        if self.went.extend_from_slice(&text[..count]).is_err() {
            count = 0;
        }
        self.is_broken = false;
        self.is_stuck = count < text.len();
        Ok(count)
    }

    fn note(&mut self, _note: &()) {}
}
