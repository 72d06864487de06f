//! What comes in at a port.

ghost use Rattle.std.specs.Prelude.{◌≡◌, ◌≤◌, take, IfSome};

use crate::reader::InputReader;
use savi_ends::{Clock, Source};
use savi_kinds::{FRAME_OCTETS_MOST, Format, Next};

/// The source of a port and the clock that stamps what comes in there, with the reader of its form and room for one frame.
/// It takes no memory.
#[derive(Drop)]
pub struct PortInput<S, C> {
    pub source: S,
    pub clock: C,
    pub reader: InputReader,
    buf: [u8; FRAME_OCTETS_MOST],
}

impl<S, C> PortInput<S, C> {
    ghost use Rattle.input_read.specs.Readers.{IsNew};
    ghost use Rattle.input_read.specs.Inputs.{frame_in};

    /// An input of this form, of which nothing was read yet.
    pub fn new(format: Format, source: S, clock: C) -> PortInput<S, C>
        ensures source { result.source ≡ source }
        ensures clock { result.clock ≡ clock }
        ensures reader { IsNew format result.reader }
    {
        PortInput {
            source,
            clock,
            reader: InputReader::new(format),
            buf: [0; FRAME_OCTETS_MOST],
        }
    }

    /// The octets of the frame that was read last, of this length. O(1).
    pub fn frame(&self, len: u32) -> &[u8]
        requires { len ≤ FRAME_OCTETS_MOST }
        ensures { result.now ≡ frame_in self.now len }
    {
        &self.buf[..len as usize]
    }

    /// The source and the clock, given back.
    pub fn into_ends(self) -> (S, C)
        ensures source { result.0 ≡ self.source }
        ensures clock { result.1 ≡ self.clock }
    {
        let PortInput {
            source,
            clock,
            reader: _,
            buf: _,
        } = self;
        (source, clock)
    }
}

impl<S: Source, C: Clock> PortInput<S, C> {
    ghost use Rattle.input_read.specs.Inputs.{Reads};
    ghost use Rattle.input_read.specs.Readers.{last_answer};

    /// Reads the next record, behind the header where a capture's wasn't read yet.
    ///
    /// The octets of a `Frame`, at most 1,518, are those of `frame`; those of a `Long`, up to 262,144, are passed over. The
    /// stamp (ms) is that of the record in a capture; in a stream it is a reading of the clock, taken when the record is
    /// whole. `Malformed` gives the place of what is at fault. `Failed` comes only where a read failed in this call. After
    /// `End`, `Malformed` or `Failed` nothing is read and the same comes again. The source is read in pieces as large as
    /// the reader of the form takes them. O(n) in the octets of the record.
    pub fn read(&mut self) -> Next
        ensures reads { Reads S.left S.faults C.readings self.old self.new result }
        ensures again { IfSome (last_answer self.old.reader) (λ answer. (result ≡ answer) × (self.new ≡ self.old)) }
    {
        match &mut self.reader {
            InputReader::Pcap(reader) => {
                reader.next(&mut self.source, &mut self.clock, &mut self.buf)
            }
            InputReader::Stream(reader) => {
                reader.next(&mut self.source, &mut self.clock, &mut self.buf)
            }
        }
    }
}
