//! A connection, as the system gives it.

ghost use Rattle.std.specs.Prelude.{◌≢◌, ◌≤◌, length};
ghost use Rattle.connection_hall.specs.Streams.{got_len, took_len};
ghost use Rattle.connection_hall.specs.declared.stream.Got.TheVariants as got;

use connection_hall::{Broken, Got};
use mio::net::{TcpStream, UnixStream};
use mio::{Interest, Registry, Token};
use std::io::{self, ErrorKind, Read, Write};

/// How often a call is made again that the system interrupts.
const TRIES: u32 = 64;

/// A connection, as the system gives it.
#[derive(Drop)]
pub(crate) enum Socket {
    Tcp(TcpStream),
    Unix(UnixStream),
}

impl Socket {
    /// Has it watched under this token.
    pub(crate) fn watch(&mut self, registry: &Registry, token: Token) -> io::Result<()> {
        let interest = Interest::READABLE | Interest::WRITABLE;
        match self {
            Socket::Tcp(stream) => registry.register(stream, token, interest),
            Socket::Unix(stream) => registry.register(stream, token, interest),
        }
    }

    /// Reads what is there.
    pub(crate) fn read(&mut self, room: &mut [u8]) -> Got
        ensures bound { got_len result ≤ length room.new }
        ensures some { result ≢ got.Bytes 0 }
    {
        match self {
            Socket::Tcp(stream) => read(stream, room),
            Socket::Unix(stream) => read(stream, room),
        }
    }

    /// Writes what goes now.
    pub(crate) fn write(&mut self, text: &[u8]) -> Result<usize, Broken>
        ensures { took_len result ≤ length text.now }
    {
        match self {
            Socket::Tcp(stream) => write(stream, text),
            Socket::Unix(stream) => write(stream, text),
        }
    }
}

/// Whether a call only cannot be answered now.
pub(crate) fn is_not_now(error: &io::Error) -> bool {
    error.kind() == ErrorKind::WouldBlock
}

/// Reads what is there. One that is interrupted again and again is broken.
fn read<S: Read>(stream: &mut S, room: &mut [u8]) -> Got
    ensures bound { got_len result ≤ length room.new }
    ensures some { result ≢ got.Bytes 0 }
{
    for _ in 0..TRIES {
        match stream.read(room) {
            Ok(0) => return Got::End,
            Ok(count) => return Got::Bytes(count),
            Err(error) if is_not_now(&error) => return Got::Nothing,
            Err(error) if error.kind() == ErrorKind::Interrupted => {}
            Err(_) => return Got::End,
        }
    }
    Got::End
}

/// Writes what goes now.
fn write<S: Write>(stream: &mut S, text: &[u8]) -> Result<usize, Broken>
    ensures { took_len result ≤ length text.now }
{
    for _ in 0..TRIES {
        match stream.write(text) {
            Ok(count) => return Ok(count),
            Err(error) if is_not_now(&error) => return Ok(0),
            Err(error) if error.kind() == ErrorKind::Interrupted => {}
            Err(_) => return Err(Broken),
        }
    }
    Err(Broken)
}
