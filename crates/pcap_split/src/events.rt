ghost use Rattle.std.specs.Prelude.{◌<◌, ◌≤◌, ◌^◌, length};
ghost use Rattle.pcapng_io.specs.Runs.{Frame};
ghost use Rattle.pcap_split.specs.Counts.{counted};
ghost use Rattle.pcap_split.specs.Going.{Differ};
ghost use Rattle.pcap_split.specs.Steps.{MayTake, Does, DoesEvent};

use crate::counts::Counts;
use crate::output::Output;
use crate::places::place_of;
use crate::split::SplitGot;
use pcap_io::put;
use pcapng_io::NgNext;
use savi_ends::{Put, Sink};
use savi_kinds::FRAME_OCTETS_MOST;

/// The link type of Ethernet, LINKTYPE_ETHERNET.
const LINK_TYPE_ETHERNET: u16 = 1;

/// The interfaces that get an output are the first so many of the file, where they are Ethernet.
const OUTPUTS_MOST: u64 = 16;

// Counts what an answer tells, and writes a frame to the output of its interface. The answer is where to stop, if so.
pub(crate) fn take_answer<K: Sink>(
    counts: &mut Counts,
    outputs: &mut [Output<K>],
    answer: NgNext,
    buf: &[u8; FRAME_OCTETS_MOST],
) -> Option<SplitGot>
    requires room { MayTake answer counts.old }
    requires differ { Differ outputs.old }
    ensures { Does K.written K.faults answer buf.now counts.old counts.new outputs.old outputs.new result }
{
    match answer {
        NgNext::Interface { link } => {
            let interface = counts.interfaces;
            counts.interfaces += 1;
            if link == LINK_TYPE_ETHERNET && interface < OUTPUTS_MOST {
                return Some(SplitGot::Opens {
                    interface: interface as u32,
                });
            }
            None
        }
        NgNext::Frame {
            interface,
            stamp,
            len,
        } => write_frame(counts, outputs, interface, stamp, &buf[..len as usize]),
        NgNext::Long { interface } => {
            match place_of(outputs, interface) {
                Some(_) => counts.long += 1,
                None => counts.skipped += 1,
            }
            None
        }
        NgNext::End => Some(SplitGot::End),
        NgNext::Malformed { at } => Some(SplitGot::Malformed { at }),
        NgNext::Failed => Some(SplitGot::Failed),
    }
}

// Writes a frame to the output of its interface, where there is one.
fn write_frame<K: Sink>(
    counts: &mut Counts,
    outputs: &mut [Output<K>],
    interface: u32,
    stamp: u64,
    frame: &[u8],
) -> Option<SplitGot>
    requires room { counted counts.old < 2 ^ 62 }
    requires differ { Differ outputs.old }
    requires short { length frame.now ≤ 1518 }
    ensures { DoesEvent K.written K.faults (Frame interface stamp frame.now) counts.old counts.new outputs.old outputs.new result }
{
    let Some(place) = place_of(outputs, interface) else {
        counts.skipped += 1;
        return None;
    };
    counts.frames += 1;
    match put(&mut outputs[place].sink, stamp, frame) {
        Put::Done => None,
        Put::Failed => Some(SplitGot::Unwritten { interface }),
    }
}
