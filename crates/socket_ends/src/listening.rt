//! The socket at a path.

use mio::net::UnixStream;
use std::fs::{self, Files};
use std::io::{self, ErrorKind};
use std::net::Net;
use std::os::unix::fs::FileTypeExt;
use std::os::unix::net::UnixListener;

/// Makes a socket at this path, whose lock the caller has, and listens there. A socket that is there already is taken over
/// where nobody listens any more; else what is there stays, and the answer is `Err`.
///
/// Whether somebody listens, which is no switch, is tried by a connection, which is closed at once. It doesn't wait: where
/// as many wait already as the listener lets, the answer is `Err`, too.
pub(crate) fn listen<R: Files + Net>(rt: &R, path: &str) -> io::Result<UnixListener> {
    if is_left(rt, path) {
        fs::remove_file(rt, path)?;
    }
    UnixListener::bind(rt, path)
}

// Whether there is a socket at this path where nobody listens. A link to one is none.
fn is_left<R: Files + Net>(rt: &R, path: &str) -> bool {
    match fs::symlink_metadata(rt, path) {
        Ok(found) => found.file_type().is_socket() && is_refused(rt, path),
        Err(_) => false,
    }
}

// Whether a connection to this path is refused.
fn is_refused<R: Net>(rt: &R, path: &str) -> bool {
    match UnixStream::connect(rt, path) {
        Ok(_) => false,
        Err(cause) => cause.kind() == ErrorKind::ConnectionRefused,
    }
}
