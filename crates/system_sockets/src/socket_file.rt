//! The file of a unix socket.

use mio::net::{UnixListener, UnixStream};
use std::fs::{self, Permissions};
use std::io::{self, ErrorKind};
use std::os::unix::fs::{FileTypeExt, PermissionsExt};

/// The rights of the file: whoever may enter its folder may connect, whatever the umask is. A umask that lets a group
/// connect would let it write the register.
const RIGHTS: u32 = 0o666;

/// A unix socket that listens, with its file, which is removed when this is let go.
pub(crate) struct SocketFile<'r> {
    rt: &'r HostRuntime,
    path: &'r str,
    listener: UnixListener,
}

impl<'r> SocketFile<'r> {
    /// Listens at a path. What a program left there that was killed is removed first.
    pub(crate) fn bind(rt: &'r HostRuntime, path: &'r str) -> io::Result<SocketFile<'r>> {
        remove_left(rt, path)?;
        let listener = UnixListener::bind(rt, path)?;
        let file = SocketFile { rt, path, listener };
        fs::set_permissions(rt, path, Permissions::from_mode(RIGHTS))?;
        Ok(file)
    }

    /// What listens.
    pub(crate) fn listener(&mut self) -> &mut UnixListener {
        &mut self.listener
    }
}

impl Drop for SocketFile<'_> {
    fn drop(self) {
        let SocketFile { rt, path, listener } = self;
        drop(listener);
        // A file that stays is removed when something listens there again.
        let _ = remove_left(rt, path);
    }
}

/// Removes the file of a unix socket on which nobody listens any more, if there is one. Anything else there is refused.
/// Of two programs that do this at the same time only the later one is found at the path: one register has one program
/// at a time, by the lock of its file.
fn remove_left(rt: &HostRuntime, path: &str) -> io::Result<()> {
    match fs::symlink_metadata(rt, path) {
        Ok(found) if found.file_type().is_socket() => remove_unheard(rt, path),
        Ok(_) => Err(io::Error::new(
            ErrorKind::AlreadyExists,
            "a file is there that is no socket",
        )),
        Err(error) if error.kind() == ErrorKind::NotFound => Ok(()),
        Err(error) => Err(error),
    }
}

/// Removes the file of a unix socket if nobody listens on it.
fn remove_unheard(rt: &HostRuntime, path: &str) -> io::Result<()> {
    match UnixStream::connect(rt, path) {
        Err(error) if error.kind() == ErrorKind::ConnectionRefused => fs::remove_file(rt, path),
        Err(error) if error.kind() != ErrorKind::WouldBlock => Err(error),
        // So many wait there that no more may, or one more does now.
        Ok(_) | Err(_) => Err(io::Error::new(
            ErrorKind::AddrInUse,
            "another program listens there",
        )),
    }
}
