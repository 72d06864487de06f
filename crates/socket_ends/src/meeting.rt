//! Where the one peer of a path is met.

use crate::listening::listen;
use crate::path_lock::PathLock;
use crate::patience::Patience;
use std::alloc::Global;
use std::fs::{self, File, Files};
use std::io::{self, ErrorKind};
use std::net::Net;
use std::os::unix::net::{UnixListener, UnixStream};
use std::sync::{Mutex, Wait};
use std::thread::Parker;

// The peer of a path: it is waited for, or it came, or it can't come any more.
#[derive(Drop)]
enum Peer {
    Awaited(UnixListener),
    Here(UnixStream),
    Lost,
}

/// What came of a meeting.
#[derive(Drop)]
pub(crate) enum Met {
    /// A stream to the peer. A write there that waits for longer than a step of patience gives up with `WouldBlock`.
    Here(UnixStream),
    /// The peer hasn't come yet.
    NotYet,
    /// No peer can be accepted.
    Never,
}

/// A path where one peer is accepted once. The two ends of a port whose names are the same path share it. The path is locked
/// as long as they live, also once the peer has come.
pub(crate) struct Meeting<R: Files + Net + Wait + Drop> {
    rt: R,
    path: String,
    peer: Mutex<Peer>,
    came: Parker,
    lock: PathLock<R>,
}

impl<R: Files + Net + Wait + Copy + Drop> Meeting<R> {
    /// Locks this path, whose lock file is opened by `files`, and listens there.
    pub fn at<F: Files<File = File>>(
        rt: R,
        files: &F,
        alloc: Global,
        path: &str,
    ) -> io::Result<Meeting<R>> {
        let name = String::from_str(alloc, path)?;
        let lock = PathLock::take(rt, files, alloc, path)?;
        let listener = listen(&rt, path)?;
        Ok(Meeting {
            rt,
            path: name,
            peer: Mutex::new(Peer::Awaited(listener)),
            came: Parker::new(),
            lock,
        })
    }
}

impl<R: Files + Net + Wait + Drop> Meeting<R> {
    /// A stream to the peer, for which the source of a port waits where it didn't come yet; the path is removed then. `None`
    /// where it can't be accepted.
    pub fn meet(&self) -> Option<UnixStream> {
        let met = self.wait_and_look();
        self.came.unpark();
        match met {
            Met::Here(stream) => Some(stream),
            Met::NotYet | Met::Never => None,
        }
    }

    // What is there once the peer has come, or can't. The sink, which is woken behind this, then finds the place free.
    fn wait_and_look(&self) -> Met {
        let mut peer = self.peer.lock(&self.rt);
        self.look_at(&mut *peer, true)
    }

    /// The same for the sink of a port, which waits as long as its patience lasts. It looks in steps, since the source has
    /// the peer's place while it waits.
    pub fn meet_within(&self, patience: &mut Patience) -> Met {
        for _ in self.rt.forever() {
            match self.look() {
                Met::NotYet => {}
                met => return met,
            }
            if !patience.takes_step_to_meet() {
                return Met::NotYet;
            }
            self.came.park_timeout(&self.rt, Patience::step());
        }
        unreachable!()
    }

    // What is there now. Where the source waits, it is nobody yet.
    fn look(&self) -> Met {
        match self.peer.try_lock() {
            Some(mut peer) => self.look_at(&mut *peer, false),
            None => Met::NotYet,
        }
    }

    // Accepts the peer where it didn't come yet, and removes the path unless it may come still.
    fn look_at(&self, peer: &mut Peer, waits: bool) -> Met {
        if let Peer::Awaited(listener) = &*peer {
            let came = accept(listener, waits);
            if is_none_yet(&came) {
                return Met::NotYet;
            }
            let _ = fs::remove_file(&self.rt, self.path.as_str());
            *peer = match came {
                Ok(stream) => Peer::Here(stream),
                Err(_) => Peer::Lost,
            };
        }
        match &*peer {
            Peer::Here(stream) => match stream.try_clone() {
                Ok(stream) => Met::Here(stream),
                Err(_) => Met::Never,
            },
            Peer::Awaited(_) | Peer::Lost => Met::Never,
        }
    }
}

// Accepts a connection; where there is none, and it isn't waited for, the answer is `WouldBlock`.
fn accept(listener: &UnixListener, waits: bool) -> io::Result<UnixStream> {
    listener.set_nonblocking(!waits)?;
    let (stream, _) = listener.accept()?;
    stream.set_write_timeout(Some(Patience::step()))?;
    Ok(stream)
}

// Whether no connection was there.
fn is_none_yet(came: &io::Result<UnixStream>) -> bool {
    match came {
        Ok(_) => false,
        Err(cause) => cause.kind() == ErrorKind::WouldBlock,
    }
}

impl<R: Files + Net + Wait + Drop> Drop for Meeting<R> {
    // Where no peer came, the path is removed now, before the lock is given back.
    fn drop(self) {
        let Meeting {
            rt,
            path,
            peer,
            came: _,
            lock,
        } = self;
        if let Peer::Awaited(_) = peer.into_inner() {
            let _ = fs::remove_file(&rt, path.as_str());
        }
        drop(lock);
    }
}
