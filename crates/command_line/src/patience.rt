//! How long a connection may take: its reads and writes wait no longer than its time allows.

use std::alloc::AllocError;
use std::io::{self, ErrorKind, Read, Write};
use std::net::TcpStream;
use std::time::{Clock, Duration, Instant};

/// A stream whose reads and writes can be given a time limit.
pub trait Waits {
    /// Lets each read and each write from here on wait for this long at most.
    fn limit_waits(&self, most: Duration) -> io::Result<()>;
}

impl Waits for TcpStream {
    fn limit_waits(&self, most: Duration) -> io::Result<()> {
        self.set_read_timeout(Some(most))?;
        self.set_write_timeout(Some(most))
    }
}

impl Waits for &TcpStream {
    fn limit_waits(&self, most: Duration) -> io::Result<()> {
        (**self).limit_waits(most)
    }
}

/// A span of time: its start, and how long it is.
#[derive(Clone, Copy)]
struct Span {
    start: Instant,
    len: Duration,
}

/// The time that a connection may take, by this clock.
pub struct Deadline<'a, C> {
    clock: &'a C,
    /// None if there is no limit. The clock is not read then.
    span: Option<Span>,
}

impl<C> Clone for Deadline<'_, C> {
    fn clone(&self) -> Result<Self, AllocError> {
        Ok(*self)
    }
}

impl<C> Copy for Deadline<'_, C> {}

impl<'a, C: Clock> Deadline<'a, C> {
    /// This much time from now on, or no limit if no patience is given.
    pub fn after(clock: &'a C, patience: Option<Duration>) -> io::Result<Deadline<'a, C>> {
        let span = match patience {
            Some(len) => Some(Span {
                start: Instant::now(clock)?,
                len,
            }),
            None => None,
        };
        Ok(Deadline { clock, span })
    }

    /// Whether the time is over. A clock that fails ends it too.
    pub fn is_over(&self) -> bool {
        self.left().is_err()
    }

    /// The time that is left; `None` if there is no limit. It fails once the time is over, and if the clock fails.
    fn left(&self) -> io::Result<Option<Duration>> {
        let Some(span) = self.span else {
            return Ok(None);
        };
        let left = span.len.saturating_sub(span.start.elapsed(self.clock)?);
        if left.is_zero() {
            return Err(ErrorKind::TimedOut.into());
        }
        Ok(Some(left))
    }

    /// Lets the next read or write of this stream wait for the time that is left.
    fn begin_wait<S: Waits>(&self, stream: &S) -> io::Result<()> {
        match self.left()? {
            Some(left) => stream.limit_waits(left),
            None => Ok(()),
        }
    }
}

/// A stream that fails once the time of its connection is over.
#[derive(Drop)]
pub struct Patient<'a, S, C> {
    stream: S,
    deadline: Deadline<'a, C>,
}

impl<'a, S: Waits, C: Clock> Patient<'a, S, C> {
    /// The stream, for as long as this time lasts.
    pub fn new(stream: S, deadline: &Deadline<'a, C>) -> Patient<'a, S, C> {
        Patient {
            stream,
            deadline: *deadline,
        }
    }
}

impl<S: Read + Waits, C: Clock> Read for Patient<'_, S, C> {
    ghost remaining = { λ patient. S.remaining patient.stream };

    fn read(&mut self, buf: &mut [u8]) -> io::Result<usize> {
        self.deadline.begin_wait(&self.stream)?;
        self.stream.read(buf)
    }
}

impl<S: Write + Waits, C: Clock> Write for Patient<'_, S, C> {
    ghost contents = { λ patient. S.contents patient.stream };

    fn write(&mut self, buf: &[u8]) -> io::Result<usize> {
        self.deadline.begin_wait(&self.stream)?;
        self.stream.write(buf)
    }

    fn flush(&mut self) -> io::Result<()> {
        self.stream.flush()
    }
}
