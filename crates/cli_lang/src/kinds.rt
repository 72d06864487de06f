use savi_kinds::{Addr, Port};

/// What a line asks the switch for.
#[derive(Clone, Copy, PartialEq, Eq, Debug)]
pub enum Command {
    ShowBindings,
    ShowPorts,
    ShowCounters,
    ShowStations,
    /// Forget what is known of the address in this VLAN.
    Clear(u16, Addr),
    /// Bind the address to the port for good, in the port's VLAN.
    Static(Addr, Port),
    /// Take the port out of service.
    Shut(Port),
    /// Put the port into service again.
    Reopen(Port),
    Quit,
}

/// Why a line is no command.
#[derive(Clone, Copy, PartialEq, Eq, Debug)]
pub enum CmdFault {
    /// Its words are those of no command.
    Unknown,
    /// An address, or the key of one, is wanted, and the word there is none.
    Address,
    /// The number of a port is wanted, and the word there is none from 1 to 16.
    PortNumber,
}

/// What a reader of control lines answers: the next line, or how the input ended.
#[derive(Clone, Copy, PartialEq, Eq, Debug)]
pub enum LineGot {
    /// A line, whose command is the first `len` octets of the buffer; the stamp is in ms.
    Line { stamp: u64, len: u32 },
    /// The input ended behind a line.
    End,
    /// The line that begins at this place (octets from the input's start) is at fault.
    Malformed { at: u64 },
    /// The line that begins at this place (octets from the input's start) has more than 120 octets.
    Overlong { at: u64 },
    /// A read failed.
    Failed,
}
