//! How octets are received.

ghost use Rattle.std.specs.Prelude.{◌≡◌, ◌<◌, length};
ghost use Rattle.std.specs.Io.KnownBytes.{Consumes, IsAtEnd};
ghost use Rattle.savi_ends.specs.Reads.{FitsIn, octets_given};

use crate::source::Got;
use std::io::Read;

/// Reads the next octets into the front of a buffer that isn't empty, in one read. `Failed` where that failed.
pub fn receive<R: Read>(reader: &mut R, buf: &mut [u8]) -> Got
    requires { 0 < length buf.old }
    ensures count { FitsIn result (length buf.old) }
    ensures bytes { Consumes (R.remaining reader.old) (R.remaining reader.new) (octets_given result buf.new) }
    ensures end { result ≡ Got.End → IsAtEnd (R.remaining reader.new) }
{
    match reader.read(buf) {
        Ok(0) => Got::End,
        Ok(n) => Got::Bytes(n),
        Err(_) => Got::Failed,
    }
}
