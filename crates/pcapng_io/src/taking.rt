ghost use Rattle.std.specs.Prelude.{◌≡◌, ◌≢◌, ◌<◌, ◌≤◌, ◌+◌, ℕ, List, length, take, MatchResult, IfErr, Err};
ghost use Rattle.savi_ends.specs.Octets.{Takes};
ghost use Rattle.savi_ends.specs.Faults.{Rose};
ghost use Rattle.pcapng_io.specs.Options.{padded};
ghost use Rattle.pcapng_io.specs.Pieces.{FallsShort};

use crate::stop::Stop;
use savi_ends::{Filled, Got, Source, fill};
use savi_kinds::FRAME_OCTETS_MOST;

/// The room for octets that are passed over.
pub(crate) const SCRATCH_OCTETS: usize = 512;

// Takes octets until the buffer is full.
pub(crate) fn take<S: Source>(source: &mut S, buf: &mut [u8]) -> Result<(), Stop>
    ensures later { S.faults source.old ≤ S.faults source.new }
    ensures cause { IfErr result (λ stop. stop ≡ Stop.Failed → Rose (S.faults source.old) (S.faults source.new)) }
    ensures still { result ≢ Err Stop.Failed → S.faults source.new ≡ S.faults source.old }
    ensures octets { (gave : List ℕ) × Takes (S.left source.old) (S.left source.new) gave × MatchResult result (λ _. gave ≡ buf.new) (λ stop. FallsShort (length buf.new) stop gave (S.left source.new)) }
{
    match fill(source, buf) {
        Filled::Whole => Ok(()),
        Filled::Short(_) => Err(Stop::Malformed),
        Filled::Failed => Err(Stop::Failed),
    }
}

// Takes so many octets and keeps none of them; the scratch is room for the pieces.
pub(crate) fn pass_over<S: Source>(
    source: &mut S,
    len: usize,
    scratch: &mut [u8],
) -> Result<(), Stop>
    requires { 0 < length scratch.old }
    ensures later { S.faults source.old ≤ S.faults source.new }
    ensures cause { IfErr result (λ stop. stop ≡ Stop.Failed → Rose (S.faults source.old) (S.faults source.new)) }
    ensures still { result ≢ Err Stop.Failed → S.faults source.new ≡ S.faults source.old }
    ensures octets { (gave : List ℕ) × Takes (S.left source.old) (S.left source.new) gave × MatchResult result (λ _. length gave ≡ len) (λ stop. FallsShort len stop gave (S.left source.new)) }
{
    let mut missing = len;
    while missing > 0 {
        let room = missing.min(scratch.len());
        match source.read(&mut scratch[..room]) {
            Got::Bytes(n) => missing -= n,
            Got::End => return Err(Stop::Malformed),
            Got::Failed => return Err(Stop::Failed),
        }
    }
    Ok(())
}

// So many octets with their padding to a multiple of four.
pub(crate) fn padded_len(len: usize) -> usize
    requires { len ≤ 262144 }
    ensures { result ≡ padded len }
{
    (len + 3) / 4 * 4
}

// Takes the captured octets of a packet and their padding: into the buffer where they are at most 1,518, else
// it is room for the pieces.
pub(crate) fn take_captured<S: Source>(
    source: &mut S,
    len: usize,
    buf: &mut [u8; FRAME_OCTETS_MOST],
) -> Result<(), Stop>
    requires { len ≤ 262144 }
    ensures later { S.faults source.old ≤ S.faults source.new }
    ensures cause { IfErr result (λ stop. stop ≡ Stop.Failed → Rose (S.faults source.old) (S.faults source.new)) }
    ensures still { result ≢ Err Stop.Failed → S.faults source.new ≡ S.faults source.old }
    ensures octets { (gave : List ℕ) × Takes (S.left source.old) (S.left source.new) gave × MatchResult result (λ _. (length gave ≡ padded len) × (len ≤ 1518 → take len gave ≡ take len buf.new)) (λ stop. FallsShort (padded len) stop gave (S.left source.new)) }
{
    if len > FRAME_OCTETS_MOST {
        return pass_over(source, padded_len(len), buf);
    }
    take(source, &mut buf[..len])?;
    pass_over(source, padded_len(len) - len, &mut [0; 4])
}
