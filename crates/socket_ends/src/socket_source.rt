//! What a peer sends, as a source.

ghost use Rattle.std.specs.Prelude.{◌≡◌, None};

use crate::meeting::Meeting;
use savi_ends::{Got, Source, receive};
use std::alloc::Global;
use std::fs::Files;
use std::net::Net;
use std::os::unix::net::UnixStream;
use std::sync::{Arc, Wait};

/// What the peer of a path sends. It tells nothing of that, and ends where the peer goes away.
#[derive(Drop)]
pub struct SocketSource<R: Files + Net + Wait + Drop> {
    meeting: Arc<Meeting<R>, Global>,
    stream: Option<UnixStream>,
    faults: u64,
}

impl<R: Files + Net + Wait + Drop> SocketSource<R> {
    // A source whose peer wasn't met yet.
    pub(crate) fn over(meeting: Arc<Meeting<R>, Global>) -> SocketSource<R>
        ensures { result.faults ≡ 0 }
    {
        SocketSource {
            meeting,
            stream: None,
            faults: 0,
        }
    }
}

impl<R: Files + Net + Wait + Drop> Source for SocketSource<R> {
    ghost left = { λ s. None };

    ghost faults = { λ s. s.faults };

    fn faults(&self) -> u64 {
        self.faults
    }

    fn read(&mut self, buf: &mut [u8]) -> Got {
        if self.stream.is_none() {
            self.stream = self.meeting.meet();
        }
        let got = match &mut self.stream {
            Some(stream) => receive(stream, buf),
            None => Got::Failed,
        };
        if got == Got::Failed {
            self.faults = self.faults.saturating_add(1);
        }
        got
    }
}
