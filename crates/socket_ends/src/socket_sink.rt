//! What is sent to a peer, as a sink.

ghost use Rattle.std.specs.Prelude.{◌≡◌, None};

use crate::leftover::Leftover;
use crate::meeting::{Meeting, Met};
use crate::patience::{OutputsAwaited, Patience};
use savi_ends::{Put, Sink};
use std::alloc::Global;
use std::fs::Files;
use std::io::{ErrorKind, Write};
use std::net::Net;
use std::os::unix::net::UnixStream;
use std::sync::{Arc, Wait};

/// What is sent to the peer of a path, each piece at once. It tells nothing of what was sent.
///
/// It waits for its peer for as long as it takes, but while the outputs are awaited only as long as these may be
/// (`OutputsAwaited`). What a peer that rests doesn't take then is dealt with as the opening says (`Resting`). Where no peer
/// has come, the piece goes nowhere, and is done; a peer that comes later gets what is written then.
#[derive(Drop)]
pub struct SocketSink<R: Files + Net + Wait + Drop> {
    meeting: Arc<Meeting<R>, Global>,
    patience: Patience,
    stream: Option<UnixStream>,
    // what is left of a piece, where what isn't taken goes nowhere
    left: Option<Leftover>,
    faults: u64,
}

impl<R: Files + Net + Wait + Drop> SocketSink<R> {
    // A sink whose peer wasn't met yet. Without room for what is left of a piece a write that a peer doesn't take fails.
    pub(crate) fn over(
        meeting: Arc<Meeting<R>, Global>,
        awaited: Arc<OutputsAwaited, Global>,
        left: Option<Leftover>,
    ) -> SocketSink<R>
        ensures { result.faults ≡ 0 }
    {
        SocketSink {
            meeting,
            patience: Patience::new(awaited),
            stream: None,
            left,
            faults: 0,
        }
    }
}

impl<R: Files + Net + Wait + Drop> Sink for SocketSink<R> {
    ghost written = { λ s. None };

    ghost faults = { λ s. s.faults };

    fn faults(&self) -> u64 {
        self.faults
    }

    fn write(&mut self, piece: &[u8]) -> Put {
        if piece.is_empty() {
            return Put::Done;
        }
        if self.stream.is_none() {
            match self.meeting.meet_within(&mut self.patience) {
                Met::Here(stream) => self.stream = Some(stream),
                Met::NotYet => return Put::Done,
                Met::Never => {}
            }
        }
        let put = match (&self.stream, &mut self.left) {
            (Some(stream), Some(left)) => send_or_leave(stream, left, piece, &mut self.patience),
            (Some(stream), None) => send_or_fail(stream, piece, &mut self.patience),
            (None, _) => Put::Failed,
        };
        if put == Put::Failed {
            self.faults = self.faults.saturating_add(1);
        }
        put
    }
}

// Sends what is left of an earlier piece and then this one, of which what the peer doesn't take goes nowhere, unless it took
// a part of it: then the rest is left.
fn send_or_leave(
    stream: &UnixStream,
    left: &mut Leftover,
    piece: &[u8],
    patience: &mut Patience,
) -> Put {
    let count = match send_within(stream, left.octets(), patience) {
        Sent::Whole => 0,
        Sent::Rest(rest) => rest.len(),
        Sent::Failed => return Put::Failed,
    };
    left.shorten_to(count);
    if count > 0 {
        return Put::Done;
    }
    match send_within(stream, piece, patience) {
        Sent::Whole => Put::Done,
        Sent::Rest(rest) if rest.len() == piece.len() || left.replace(rest) => Put::Done,
        Sent::Rest(_) | Sent::Failed => Put::Failed,
    }
}

// Sends this piece, or fails where the peer doesn't take it.
fn send_or_fail(stream: &UnixStream, piece: &[u8], patience: &mut Patience) -> Put {
    match send_within(stream, piece, patience) {
        Sent::Whole => Put::Done,
        Sent::Rest(_) | Sent::Failed => Put::Failed,
    }
}

// What came of sending octets: all were sent, or the peer rests and these weren't taken, or it took nothing for good.
enum Sent<'a> {
    Whole,
    Rest(&'a [u8]),
    Failed,
}

// Sends octets, in as many writes as that takes, while this patience lasts. A write that a stop of the process interrupted
// is made again.
fn send_within<'a>(stream: &UnixStream, octets: &'a [u8], patience: &mut Patience) -> Sent<'a> {
    let mut writer = stream;
    let mut rest = octets;
    if rest.is_empty() {
        return Sent::Whole;
    }
    if !patience.may_begin() {
        return Sent::Rest(rest);
    }
    for _ in 0..u64::MAX {
        match writer.write(rest) {
            Ok(0) => return Sent::Failed,
            Ok(n) => rest = &rest[n..],
            Err(cause) if cause.kind() == ErrorKind::Interrupted => continue,
            Err(cause) if cause.kind() == ErrorKind::WouldBlock => {}
            Err(_) => return Sent::Failed,
        }
        if rest.is_empty() {
            patience.is_renewed();
            return Sent::Whole;
        }
        if !patience.takes_step() {
            return Sent::Rest(rest);
        }
    }
    Sent::Failed
}
