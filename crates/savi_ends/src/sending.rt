//! How a piece is sent.

ghost use Rattle.std.specs.Prelude.{◌≡◌, List, ℕ};
ghost use Rattle.std.specs.Io.KnownBytes.{Appends};
ghost use Rattle.savi_ends.specs.Octets.{IsFront};

use crate::sink::Put;
use std::io::Write;

/// Writes a piece, in as many writes as the writer makes of it. `Failed` where a write failed or took nothing; then a front
/// of the piece was written.
pub fn send<W: Write>(writer: &mut W, piece: &[u8]) -> Put
    ensures done { result ≡ Put.Done → Appends (W.contents writer.old) (W.contents writer.new) piece.now }
    ensures part { result ≡ Put.Failed → (front : List ℕ) × IsFront front piece.now × Appends (W.contents writer.old) (W.contents writer.new) front }
{
    let mut rest = piece;
    while !rest.is_empty() {
        match writer.write(rest) {
            Ok(0) | Err(_) => return Put::Failed,
            Ok(n) => rest = &rest[n..],
        }
    }
    Put::Done
}
