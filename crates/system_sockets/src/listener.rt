//! What listens at an address.

use crate::address::Address;
use crate::socket::Socket;
use crate::socket_file::SocketFile;
use mio::net::TcpListener;
use mio::{Interest, Registry, Token};
use std::io;
use std::net::{IpAddr, Ipv4Addr, SocketAddr};

/// What listens at an address.
#[derive(Drop)]
pub(crate) enum Listener<'r> {
    Port(TcpListener),
    Socket(SocketFile<'r>),
}

impl<'r> Listener<'r> {
    /// Listens at an address.
    pub(crate) fn bind(rt: &'r HostRuntime, address: Address<'r>) -> io::Result<Listener<'r>> {
        match address {
            Address::Port(number) => {
                let address = SocketAddr::new(IpAddr::V4(Ipv4Addr::new(127, 0, 0, 1)), number);
                Ok(Listener::Port(TcpListener::bind(rt, address)?))
            }
            Address::Socket(path) => Ok(Listener::Socket(SocketFile::bind(rt, path)?)),
        }
    }

    /// Has it watched under this token.
    pub(crate) fn watch(&mut self, registry: &Registry, token: Token) -> io::Result<()> {
        match self {
            Listener::Port(listener) => registry.register(listener, token, Interest::READABLE),
            Listener::Socket(file) => registry.register(file.listener(), token, Interest::READABLE),
        }
    }

    /// A connection that waits, if one does.
    pub(crate) fn accept(&mut self) -> io::Result<Socket> {
        match self {
            Listener::Port(listener) => {
                let (stream, _) = listener.accept()?;
                // Replies are written whole, and without this each may wait until the peer acknowledges the one before.
                let _ = stream.set_nodelay(true);
                Ok(Socket::Tcp(stream))
            }
            Listener::Socket(file) => {
                let (stream, _) = file.listener().accept()?;
                Ok(Socket::Unix(stream))
            }
        }
    }
}
