//! Readers and writers that work in small steps, of which one may fail, or that see what the other one did.

use std::cell::Cell;
use std::io::{self, Read, Write};

/// Gives what it has in small steps.
#[derive(Drop)]
pub struct Giving<'a> {
    /// What is left to give.
    pub rest: &'a [u8],
    /// How many bytes a read gets at most.
    pub most: usize,
    /// How many reads there are before the one that fails, if one does.
    pub fails: Option<usize>,
}

impl Read for Giving<'_> {
    fn read(&mut self, room: &mut [u8]) -> io::Result<usize> {
        if is_last(&mut self.fails) {
            return Err(io::Error::from(io::ErrorKind::ConnectionReset));
        }
        let count = self.most.min(room.len());
        self.rest.read(&mut room[..count])
    }
}

/// Takes what it gets in small steps.
#[derive(Drop)]
pub struct Taking<'a> {
    /// What was taken.
    pub output: &'a mut Vec<u8>,
    /// How many bytes of a write are taken at most.
    pub most: usize,
    /// How many writes there are before the one that fails, if one does.
    pub fails: Option<usize>,
}

impl Write for Taking<'_> {
    fn write(&mut self, text: &[u8]) -> io::Result<usize> {
        if is_last(&mut self.fails) {
            return Err(io::Error::from(io::ErrorKind::BrokenPipe));
        }
        let count = self.most.min(text.len());
        self.output.write(&text[..count])
    }

    fn flush(&mut self) -> io::Result<()> {
        Ok(())
    }
}

/// Counts a call, and says whether it is the one that fails.
fn is_last(fails: &mut Option<usize>) -> bool {
    match *fails {
        Some(0) => {
            *fails = None;
            true
        }
        Some(left) => {
            *fails = Some(left - 1);
            false
        }
        None => false,
    }
}

/// What a client sends at once, when so many bytes were written to it.
pub type Turn = (&'static str, usize);

/// Gives what is sent in one turn a read, each only once what is due was written.
#[derive(Drop)]
pub struct Waiting<'a> {
    pub turns: &'a [Turn],
    pub written: &'a Cell<usize>,
}

impl Read for Waiting<'_> {
    fn read(&mut self, room: &mut [u8]) -> io::Result<usize> {
        let [(text, due), rest @ ..] = self.turns else {
            return Ok(0);
        };
        if self.written.get() != *due {
            return Err(io::Error::from(io::ErrorKind::WouldBlock));
        }
        self.turns = rest;
        let mut bytes = text.as_bytes();
        bytes.read(room)
    }
}

/// Takes all that is written, and counts it in a cell that a reader sees.
#[derive(Drop)]
pub struct Telling<'a> {
    pub output: &'a mut Vec<u8>,
    pub written: &'a Cell<usize>,
}

impl Write for Telling<'_> {
    fn write(&mut self, text: &[u8]) -> io::Result<usize> {
        let count = self.output.write(text)?;
        self.written.set(self.output.len());
        Ok(count)
    }

    fn flush(&mut self) -> io::Result<()> {
        Ok(())
    }
}
