// The frames of a capture.

ghost use Rattle.std.specs.Prelude.{true, IfOk};
ghost use Rattle.pcap_io.specs.Kinds.{classic_kinds};
ghost use Rattle.pcap_io.specs.Runs.{Arrive};
ghost use Rattle.capture_reads.specs.Frames.{input_of};

use pcap_io::PcapReader;
use savi_ends::{MemClock, SureSource};
use savi_kinds::{FRAME_OCTETS_MOST, Next};
use std::alloc::Global;
use std::rt::Files;
use std::{fs, io};

/// A frame as it was captured.
#[derive(Drop)]
pub struct Frame {
    /// When (ms).
    pub stamp: u64,
    pub octets: Vec<u8>,
}

/// The frames of the capture of this name, in order.
pub fn frames_of<R: Files + AllocGlobal>(rt: &R, name: &str) -> io::Result<Vec<Frame>> {
    frames_in(rt.alloc(), fs::read(rt, name)?)
}

/// The frames of a capture with one of the four classic headers, in order. The error is `InvalidData`
/// for a capture that is malformed or has a frame of more than 1,518 octets.
fn frames_in(alloc: Global, octets: Vec<u8>) -> io::Result<Vec<Frame>>
    ensures { IfOk result (λ frames. Arrive classic_kinds true octets.items (input_of frames.items)) }
{
    let mut source = SureSource::new(octets);
    let mut clock = MemClock::new(Vec::new(alloc));
    let mut reader = PcapReader::new();
    let mut buf = [0; FRAME_OCTETS_MOST];
    let mut frames = Vec::new(alloc);
    loop {
        match reader.next(&mut source, &mut clock, &mut buf) {
            Next::Frame { stamp, len } => {
                let octets = buf[..len as usize].to_vec(alloc)?;
                frames.push(Frame { stamp, octets })?;
            }
            Next::End => return Ok(frames),
            Next::Long { .. } | Next::Malformed { .. } | Next::Failed => {
                return Err(io::ErrorKind::InvalidData.into());
            }
        }
    }
}
