//! What goes out at a port.

use savi_ends::{Put, Sink};

/// A sink over a file or a standard output, or one over a socket.
#[derive(Drop)]
pub enum PortSink<F, S> {
    File(F),
    Socket(S),
}

impl<F: Sink, S: Sink> Sink for PortSink<F, S> {
    ghost use Rattle.port_ends.specs.PortSinks.{of_sink};

    ghost written = { of_sink F.written S.written };

    ghost faults = { of_sink F.faults S.faults };

    fn faults(&self) -> u64 {
        match self {
            PortSink::File(file) => file.faults(),
            PortSink::Socket(socket) => socket.faults(),
        }
    }

    fn write(&mut self, piece: &[u8]) -> Put {
        match self {
            PortSink::File(file) => file.write(piece),
            PortSink::Socket(socket) => socket.write(piece),
        }
    }
}
