//! What comes in at a port.

use savi_ends::{Got, Source};

/// A source over a file, or one over a socket.
#[derive(Drop)]
pub enum PortSource<F, S> {
    File(F),
    Socket(S),
}

impl<F: Source, S: Source> Source for PortSource<F, S> {
    ghost use Rattle.port_ends.specs.PortSources.{of_source};

    ghost left = { of_source F.left S.left };

    ghost faults = { of_source F.faults S.faults };

    fn faults(&self) -> u64 {
        match self {
            PortSource::File(file) => file.faults(),
            PortSource::Socket(socket) => socket.faults(),
        }
    }

    fn read(&mut self, buf: &mut [u8]) -> Got {
        match self {
            PortSource::File(file) => file.read(buf),
            PortSource::Socket(socket) => socket.read(buf),
        }
    }
}
