//! A reader of either form.

use pcap_io::PcapReader;
use savi_kinds::Format;
use stream_io::StreamReader;

/// The reader of an input, by its form.
#[derive(Drop)]
pub enum InputReader {
    /// Of a classic capture, of any of the four kinds.
    Pcap(PcapReader),
    /// Of a stream of frames.
    Stream(StreamReader),
}

impl InputReader {
    ghost use Rattle.input_read.specs.Readers.{IsNew};

    /// A reader at the beginning of an input of this form.
    pub fn new(format: Format) -> InputReader
        ensures { IsNew format result }
    {
        match format {
            Format::Pcap => InputReader::Pcap(PcapReader::new()),
            Format::Stream => InputReader::Stream(StreamReader::new()),
        }
    }
}
