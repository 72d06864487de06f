ghost use Rattle.std.specs.Prelude.{◌≡◌, ◌≢◌, ◌<◌, ◌≤◌, ◌+◌, ◌%◌, ℕ, List, [], ◌∷◌, length, MatchResult, IfOk, IfErr, IfSome, IfNone, Err};
ghost use Rattle.savi_ends.specs.Octets.{Takes};
ghost use Rattle.savi_ends.specs.Faults.{Rose};
ghost use Rattle.pcapng_io.specs.Options.{padded, IsResolution, units_of, HaveOptions};
ghost use Rattle.pcapng_io.specs.Pieces.{StopsWithin, AreFront, IsResolutionRead, IsOptionRead, IsTail, IsRest};

use crate::numbers::{half_at, number_at};
use crate::stop::Stop;
use crate::taking::{padded_len, pass_over, take};
use pcap_io::ByteOrder;
use savi_ends::Source;

/// The octets of an option in front of its value (pcapng section 3.5).
const OPTION_HEAD: usize = 4;

/// The end of options, opt_endofopt (pcapng section 3.5.1).
const END_OF_OPTIONS: u16 = 0;

/// The resolution of an interface's stamps, if_tsresol (pcapng section 4.2).
const RESOLUTION: u16 = 9;

/// Microseconds, where no option says otherwise (pcapng section 4.2).
const DEFAULT_UNITS: u128 = 1_000_000;

/// The total length at the end of a block (pcapng section 3.1).
pub(crate) const TAIL: usize = 4;

// What was read of the options of a block.
#[derive(Clone, Copy)]
pub(crate) enum OptionRead {
    // Their end, with all that is behind it.
    End,
    // One of so many octets; the units of a second behind it.
    Next { size: usize, units: u128 },
}

// The units of a second of this resolution, where it is at most 10^-38 s or 2^-100 s.
fn units_in(resolution: u8) -> Option<u128>
    ensures some { IfSome result (λ units. (units ≡ units_of resolution) × (0 < units) × IsResolution (resolution ∷ [])) }
    ensures none { IfNone result (¬ IsResolution (resolution ∷ [])) }
{
    match resolution {
        0..=38 => Some(10_u128.pow(u32::from(resolution))),
        128..=228 => Some(1 << (resolution - 128)),
        _ => None,
    }
}

// Reads the value of a resolution, of so many octets, with its padding.
fn read_resolution<S: Source>(source: &mut S, len: usize) -> Result<u128, Stop>
    ensures later { S.faults source.old ≤ S.faults source.new }
    ensures cause { IfErr result (λ stop. stop ≡ Stop.Failed → Rose (S.faults source.old) (S.faults source.new)) }
    ensures still { result ≢ Err Stop.Failed → S.faults source.new ≡ S.faults source.old }
    ensures octets { (gave : List ℕ) × Takes (S.left source.old) (S.left source.new) gave × MatchResult result (λ units. IsResolutionRead len units gave) (λ stop. StopsWithin (padded len) (λ x. (units : ℕ) × IsResolutionRead len units x) stop gave (S.left source.new)) }
{
    if len != 1 {
        return Err(Stop::Malformed);
    }
    let mut value = [0; 4];
    take(source, &mut value)?;
    units_in(value[0]).ok_or(Stop::Malformed)
}

// Reads the option at the front of so many octets; where it is the resolution of an interface, it gives the units of a
// second.
fn read_option<S: Source>(
    source: &mut S,
    order: ByteOrder,
    is_interface: bool,
    len: usize,
    units: u128,
) -> Result<OptionRead, Stop>
    requires least { 4 ≤ len }
    requires most { len ≤ 1048576 }
    ensures later { S.faults source.old ≤ S.faults source.new }
    ensures cause { IfErr result (λ stop. stop ≡ Stop.Failed → Rose (S.faults source.old) (S.faults source.new)) }
    ensures still { result ≢ Err Stop.Failed → S.faults source.new ≡ S.faults source.old }
    ensures octets { (gave : List ℕ) × Takes (S.left source.old) (S.left source.new) gave × MatchResult result (λ read. IsOptionRead order is_interface len units read gave) (λ stop. StopsWithin len (AreFront order is_interface len) stop gave (S.left source.new)) }
{
    let mut head = [0; OPTION_HEAD];
    take(source, &mut head)?;
    let code = half_at(order, &head, 0);
    if code == END_OF_OPTIONS {
        pass_over(source, len - OPTION_HEAD, &mut [0; 64])?;
        return Ok(OptionRead::End);
    }
    let value_len = usize::from(half_at(order, &head, 2));
    let size = OPTION_HEAD + padded_len(value_len);
    if size > len {
        return Err(Stop::Malformed);
    }
    if is_interface && code == RESOLUTION {
        let units = read_resolution(source, value_len)?;
        return Ok(OptionRead::Next { size, units });
    }
    pass_over(source, size - OPTION_HEAD, &mut [0; 64])?;
    Ok(OptionRead::Next { size, units })
}

// Reads so many octets of options. Those of an interface give the units of a second.
fn read_options<S: Source>(
    source: &mut S,
    order: ByteOrder,
    is_interface: bool,
    len: usize,
) -> Result<u128, Stop>
    requires words { len % 4 ≡ 0 }
    requires most { len ≤ 1048576 }
    ensures later { S.faults source.old ≤ S.faults source.new }
    ensures cause { IfErr result (λ stop. stop ≡ Stop.Failed → Rose (S.faults source.old) (S.faults source.new)) }
    ensures still { result ≢ Err Stop.Failed → S.faults source.new ≡ S.faults source.old }
    ensures octets { (gave : List ℕ) × Takes (S.left source.old) (S.left source.new) gave × MatchResult result (λ units. (length gave ≡ len) × HaveOptions order is_interface units gave) (λ stop. StopsWithin len (AreFront order is_interface len) stop gave (S.left source.new)) }
    ensures some { IfOk result (λ units. 0 < units) }
{
    let mut missing = len;
    let mut units = DEFAULT_UNITS;
    while missing > 0 {
        match read_option(source, order, is_interface, missing, units)? {
            OptionRead::End => return Ok(units),
            OptionRead::Next {
                size,
                units: settled,
            } => {
                missing -= size;
                units = settled;
            }
        }
    }
    Ok(units)
}

// Reads so many octets of options, and the total length of the block again.
pub(crate) fn read_rest<S: Source>(
    source: &mut S,
    order: ByteOrder,
    is_interface: bool,
    len: usize,
    total: u32,
) -> Result<u128, Stop>
    requires words { len % 4 ≡ 0 }
    requires most { len ≤ 1048576 }
    ensures later { S.faults source.old ≤ S.faults source.new }
    ensures cause { IfErr result (λ stop. stop ≡ Stop.Failed → Rose (S.faults source.old) (S.faults source.new)) }
    ensures still { result ≢ Err Stop.Failed → S.faults source.new ≡ S.faults source.old }
    ensures octets { (gave : List ℕ) × Takes (S.left source.old) (S.left source.new) gave × MatchResult result (λ units. IsRest order is_interface len total units gave) (λ stop. StopsWithin (len + 4) (λ x. (units : ℕ) × IsRest order is_interface len total units x) stop gave (S.left source.new)) }
    ensures some { IfOk result (λ units. 0 < units) }
{
    let units = read_options(source, order, is_interface, len)?;
    read_tail(source, order, total)?;
    Ok(units)
}

// Reads the total length at the end of a block.
pub(crate) fn read_tail<S: Source>(source: &mut S, order: ByteOrder, total: u32) -> Result<(), Stop>
    ensures later { S.faults source.old ≤ S.faults source.new }
    ensures cause { IfErr result (λ stop. stop ≡ Stop.Failed → Rose (S.faults source.old) (S.faults source.new)) }
    ensures still { result ≢ Err Stop.Failed → S.faults source.new ≡ S.faults source.old }
    ensures octets { (gave : List ℕ) × Takes (S.left source.old) (S.left source.new) gave × MatchResult result (λ _. IsTail order total gave) (λ stop. StopsWithin 4 (IsTail order total) stop gave (S.left source.new)) }
{
    let mut tail = [0; TAIL];
    take(source, &mut tail)?;
    if number_at(order, &tail, 0) != total {
        return Err(Stop::Malformed);
    }
    Ok(())
}
