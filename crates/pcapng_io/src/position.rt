ghost use Rattle.std.specs.Prelude.{◌≡◌};

use crate::block::{BlockRead, Whole};
use arrayvec::ArrayVec;
use pcap_io::ByteOrder;

/// The most interfaces of a section that are read.
pub(crate) const SECTION_INTERFACES_MOST: usize = 256;

/// The most interfaces of a file that are read.
pub(crate) const FILE_INTERFACES_MOST: usize = 65_536;

// Where the next block begins.
#[derive(Drop)]
pub(crate) struct Position {
    // How many octets were read so far.
    pub place: u64,
    // The byte order of the section, where one has begun.
    pub order: Option<ByteOrder>,
    // How many interfaces the earlier sections have.
    pub earlier: u32,
    // The units of a second of the interfaces of this section.
    pub units: ArrayVec<u128, SECTION_INTERFACES_MOST>,
}

impl Position {
    ghost use Rattle.pcapng_io.specs.Readers.{IsSound};
    ghost use Rattle.pcapng_io.specs.ReaderStates.{standing_of};
    ghost use Rattle.pcapng_io.specs.Answers.{behind_read};

    // Goes on behind this block.
    pub(crate) fn pass(&mut self, whole: Whole)
        requires { IsSound (behind_read (standing_of self.old) whole.block whole.size) }
        ensures { standing_of self.new ≡ behind_read (standing_of self.old) whole.block whole.size }
    {
        self.place += u64::from(whole.size);
        match whole.block {
            BlockRead::Section { order } => {
                self.order = Some(order);
                self.earlier += self.units.len() as u32;
                self.units.clear();
            }
            BlockRead::Interface { link: _, units } => self.units.push(units),
            BlockRead::Frame { .. } | BlockRead::Long { .. } | BlockRead::Other => {}
        }
    }
}
