//! A capture that is written into memory.

ghost use Rattle.std.specs.Prelude.{◌≡◌, ◌≤◌, ◌++◌, Some, length, IfOk, OnOk};
ghost use Rattle.pcap_io.specs.Captures.{header_text, record_text};
ghost use Rattle.load_gen.specs.Writing.{octets_of};

use pcap_io::{begin, put};
use savi_ends::{Put, Sink};
use std::alloc::{AllocError, Global};

/// The octets of a capture's header (libpcap savefile format).
pub(crate) const HEADER_OCTETS: usize = 24;
/// The octets of a record in front of its frame.
pub(crate) const RECORD_HEADER_OCTETS: usize = 16;

// The octets that were written, and how often memory was wanting for more.
#[derive(Drop)]
pub(crate) struct Capture {
    pub(crate) octets: Vec<u8>,
    faults: u64,
}

impl Sink for Capture {
    ghost use Rattle.savi_ends.specs.Faults.{Rose};
    ghost use Rattle.savi_ends.specs.Writes.{Extends};

    ghost written = { λ s. Some s.octets.items };

    ghost faults = { λ s. s.faults };

    fn faults(&self) -> u64 {
        self.faults
    }

    fn write(&mut self, piece: &[u8]) -> Put {
        match self.octets.extend_from_slice(piece) {
            Ok(()) => Put::Done,
            Err(_) => {
                self.faults = self.faults.saturating_add(1);
                Put::Failed
            }
        }
    }
}

impl Capture {
    // A capture with its header alone; so many octets are to be written.
    pub(crate) fn make(alloc: Global, room: usize) -> Result<Capture, AllocError>
        ensures { IfOk result (λ c. octets_of c ≡ header_text) }
    {
        let mut capture = Capture {
            octets: Vec::with_capacity(alloc, room)?,
            faults: 0,
        };
        match begin(&mut capture) {
            Put::Done => Ok(capture),
            Put::Failed => Err(AllocError),
        }
    }

    // Adds the record of a frame that is sent at this moment (ms).
    pub(crate) fn add(&mut self, moment: u64, frame: &[u8]) -> Result<(), AllocError>
        requires { length frame.now ≤ 1518 }
        ensures { OnOk result (octets_of self.new ≡ octets_of self.old ++ record_text moment frame.now) }
    {
        match put(self, moment, frame) {
            Put::Done => Ok(()),
            Put::Failed => Err(AllocError),
        }
    }
}
