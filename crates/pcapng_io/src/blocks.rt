ghost use Rattle.std.specs.Prelude.{◌≡◌, ◌≢◌, ◌<◌, ◌≤◌, ◌+◌, ◌-◌, ◌*◌, ◌%◌, ◌^◌, ◌++◌, ◌↔◌, ℕ, List, [], length, take, slice_index, IsTrue, MatchResult, IfSome, IfNone, IfErr, Err};
ghost use Rattle.std.specs.Int.{w32};
ghost use Rattle.savi_ends.specs.Octets.{Takes};
ghost use Rattle.savi_ends.specs.Faults.{Rose};
ghost use Rattle.pcap_io.specs.Numbers.{octets_of, number_at};
ghost use Rattle.pcapng_io.specs.Options.{padded};
ghost use Rattle.pcapng_io.specs.Blocks.{IsTotal, section_type, stamp_of};
ghost use Rattle.pcapng_io.specs.Readers.{IsSound};
ghost use Rattle.pcapng_io.specs.ReaderStates.{standing_of};
ghost use Rattle.pcapng_io.specs.Pieces.{StopsWithin, StopsHere, IsWhole, IsBlockRead, IsSomeBlock, IsCaptured};

use crate::block::{BlockRead, Whole};
use crate::numbers::{half_at, number_at, stands_at};
use crate::options::{TAIL, read_rest, read_tail};
use crate::position::{FILE_INTERFACES_MOST, Position, SECTION_INTERFACES_MOST};
use crate::stop::Stop;
use crate::taking::{SCRATCH_OCTETS, padded_len, pass_over, take, take_captured};
use pcap_io::ByteOrder;
use savi_ends::{Filled, Source, fill};
use savi_kinds::FRAME_OCTETS_MOST;

/// Type and total length at the front of a block (pcapng section 3.1).
const HEAD: usize = 8;

/// The type of a section header, which reads the same in either byte order (pcapng section 4.1).
const SECTION_TYPE: [u8; 4] = [0x0a, 0x0d, 0x0d, 0x0a];

/// The type of an Interface Description Block (pcapng section 4.2).
const INTERFACE_TYPE: u32 = 1;

/// The type of an Enhanced Packet Block (pcapng section 4.3).
const PACKET_TYPE: u32 = 6;

/// The byte-order magic 0x1a2b3c4d (pcapng section 4.1).
const LITTLE_MAGIC: [u8; 4] = [0x4d, 0x3c, 0x2b, 0x1a];

const BIG_MAGIC: [u8; 4] = [0x1a, 0x2b, 0x3c, 0x4d];

/// The major version of the format (pcapng section 4.1).
const VERSION_MAJOR: u16 = 1;

/// The octets of a section header in front of its options (pcapng section 4.1).
const SECTION_FRONT: u32 = 24;

/// The octets of an interface description in front of its options (pcapng section 4.2).
const INTERFACE_FRONT: u32 = 16;

/// The octets of an enhanced packet in front of the captured ones (pcapng section 4.3).
const PACKET_FRONT: u32 = 28;

/// The octets of the shortest block (pcapng section 3.1).
const BLOCK_LEAST: u32 = 12;

/// The octets of the longest block that is read.
const BLOCK_MOST: u32 = 1_048_576;

/// The most captured octets of a packet, libpcap's MAXIMUM_SNAPLEN.
const CAPTURED_OCTETS_MOST: u32 = 262_144;

/// No block ends past this place of its file: 2^62.
const LAST_PLACE: u64 = 1 << 62;

/// The latest stamp (ms): 2^62.
const LAST_STAMP: u128 = 1 << 62;

// Whether a block of at least so many octets may have this total length at this place.
fn is_total(place: u64, least: u32, total: u32) -> bool
    requires { place ≤ 2 ^ 62 }
    ensures { IsTrue result ↔ IsTotal place least total }
{
    total % 4 == 0
        && least <= total
        && total <= BLOCK_MOST
        && place + u64::from(total) <= LAST_PLACE
}

// The byte order in which these octets are the magic.
fn order_by(fields: &[u8; 16]) -> Option<ByteOrder>
    ensures some { IfSome result (λ order. take 4 fields.now ≡ octets_of order w32 0x1a2b3c4d) }
    ensures none { IfNone result ((order : ByteOrder) → take 4 fields.now ≢ octets_of order w32 0x1a2b3c4d) }
{
    if stands_at(fields, 0, &LITTLE_MAGIC) {
        Some(ByteOrder::Little)
    } else if stands_at(fields, 0, &BIG_MAGIC) {
        Some(ByteOrder::Big)
    } else {
        None
    }
}

// The stamp (ms) of so many units of a second, rounded down.
fn stamp_in(units: u128, ticks: u64) -> u64
    requires { 0 < units }
    ensures { result ≡ stamp_of units ticks }
{
    (1_000 * u128::from(ticks) / units).min(LAST_STAMP) as u64
}

// The timestamp in the fields of a packet: its high and its low 32 bits.
fn ticks_in(order: ByteOrder, fields: &[u8; 20]) -> u64
    ensures { result ≡ 2 ^ 32 * number_at order 4 fields.now + number_at order 8 fields.now }
{
    let high = u64::from(number_at(order, fields, 4));
    (high << 32) + u64::from(number_at(order, fields, 8))
}

// Reads a section header behind its type and total length.
fn read_section<S: Source>(
    source: &mut S,
    head: &[u8; HEAD],
    position: &Position,
) -> Result<Whole, Stop>
    requires placed { position.now.place ≤ 2 ^ 62 }
    requires kind { take 4 head.now ≡ section_type }
    ensures later { S.faults source.old ≤ S.faults source.new }
    ensures cause { IfErr result (λ stop. stop ≡ Stop.Failed → Rose (S.faults source.old) (S.faults source.new)) }
    ensures still { result ≢ Err Stop.Failed → S.faults source.new ≡ S.faults source.old }
    ensures octets { let s = standing_of position.now in (gave : List ℕ) × Takes (S.left source.old) (S.left source.new) gave × MatchResult result (λ whole. (held : List ℕ) → IsWhole s whole held (head.now ++ gave)) (λ stop. StopsWithin 1048568 (IsSomeBlock s head.now) stop gave (S.left source.new)) }
{
    let mut fields = [0; 16];
    take(source, &mut fields)?;
    let order = order_by(&fields).ok_or(Stop::Malformed)?;
    let total = number_at(order, head, 4);
    if half_at(order, &fields, 4) != VERSION_MAJOR
        || !is_total(position.place, SECTION_FRONT + TAIL as u32, total)
    {
        return Err(Stop::Malformed);
    }
    let options = (total - SECTION_FRONT) as usize - TAIL;
    read_rest(source, order, false, options, total)?;
    Ok(Whole {
        block: BlockRead::Section { order },
        size: total,
    })
}

// Reads an interface description behind its type and total length.
fn read_interface<S: Source>(
    source: &mut S,
    order: ByteOrder,
    head: &[u8; HEAD],
    position: &Position,
) -> Result<Whole, Stop>
    requires sound { IsSound (standing_of position.now) }
    requires order_is { position.now.order ≡ Some order }
    requires kind { number_at order 0 head.now ≡ 1 }
    ensures later { S.faults source.old ≤ S.faults source.new }
    ensures cause { IfErr result (λ stop. stop ≡ Stop.Failed → Rose (S.faults source.old) (S.faults source.new)) }
    ensures still { result ≢ Err Stop.Failed → S.faults source.new ≡ S.faults source.old }
    ensures sound { result ≡ Err Stop.Failed → IsTotal position.now.place 20 (number_at order 4 head.now) }
    ensures octets { let s = standing_of position.now in (gave : List ℕ) × Takes (S.left source.old) (S.left source.new) gave × MatchResult result (λ whole. (held : List ℕ) → IsWhole s whole held (head.now ++ gave)) (λ stop. StopsWithin 1048568 (IsSomeBlock s head.now) stop gave (S.left source.new)) }
{
    let total = number_at(order, head, 4);
    let declared = position.units.len();
    if !is_total(position.place, INTERFACE_FRONT + TAIL as u32, total)
        || declared >= SECTION_INTERFACES_MOST
        || position.earlier as usize + declared >= FILE_INTERFACES_MOST
    {
        return Err(Stop::Malformed);
    }
    let mut fields = [0; 8];
    take(source, &mut fields)?;
    let link = half_at(order, &fields, 0);
    let options = (total - INTERFACE_FRONT) as usize - TAIL;
    let units = read_rest(source, order, true, options, total)?;
    Ok(Whole {
        block: BlockRead::Interface { link, units },
        size: total,
    })
}

// Reads so many captured octets of a packet, and what stands behind them in a block of this total length.
fn read_captured<S: Source>(
    source: &mut S,
    order: ByteOrder,
    len: u32,
    total: u32,
    buf: &mut [u8; FRAME_OCTETS_MOST],
) -> Result<(), Stop>
    requires captured { len ≤ 262144 }
    requires words { total % 4 ≡ 0 }
    requires most { total ≤ 1048576 }
    requires fits { 28 + padded len + 4 ≤ total }
    ensures later { S.faults source.old ≤ S.faults source.new }
    ensures cause { IfErr result (λ stop. stop ≡ Stop.Failed → Rose (S.faults source.old) (S.faults source.new)) }
    ensures still { result ≢ Err Stop.Failed → S.faults source.new ≡ S.faults source.old }
    ensures octets { (gave : List ℕ) × Takes (S.left source.old) (S.left source.new) gave × MatchResult result (λ _. IsCaptured order len total gave × (len ≤ 1518 → take len gave ≡ take len buf.new)) (λ stop. StopsWithin (total - 28) (IsCaptured order len total) stop gave (S.left source.new)) }
{
    take_captured(source, len as usize, buf)?;
    let options = (total - PACKET_FRONT) as usize - TAIL - padded_len(len as usize);
    read_rest(source, order, false, options, total)?;
    Ok(())
}

// The packet of so many captured octets of this interface of the section.
fn packet_of(position: &Position, of_section: u32, ticks: u64, len: u32) -> BlockRead
    requires sound { IsSound (standing_of position.now) }
    requires declared { of_section < length (standing_of position.now).units }
    ensures long { 1518 < len → result ≡ BlockRead.Long (position.now.earlier + of_section) }
    ensures frame { len ≤ 1518 → result ≡ BlockRead.Frame (position.now.earlier + of_section) (stamp_of (slice_index (standing_of position.now).units of_section) ticks) len }
{
    let interface = position.earlier + of_section;
    if len as usize > FRAME_OCTETS_MOST {
        return BlockRead::Long { interface };
    }
    let stamp = stamp_in(position.units[of_section as usize], ticks);
    BlockRead::Frame {
        interface,
        stamp,
        len,
    }
}

// Reads a packet behind the type and total length of its block.
fn read_packet<S: Source>(
    source: &mut S,
    order: ByteOrder,
    head: &[u8; HEAD],
    position: &Position,
    buf: &mut [u8; FRAME_OCTETS_MOST],
) -> Result<Whole, Stop>
    requires sound { IsSound (standing_of position.now) }
    requires order_is { position.now.order ≡ Some order }
    requires kind { number_at order 0 head.now ≡ 6 }
    ensures later { S.faults source.old ≤ S.faults source.new }
    ensures cause { IfErr result (λ stop. stop ≡ Stop.Failed → Rose (S.faults source.old) (S.faults source.new)) }
    ensures still { result ≢ Err Stop.Failed → S.faults source.new ≡ S.faults source.old }
    ensures sound { result ≡ Err Stop.Failed → IsTotal position.now.place 32 (number_at order 4 head.now) }
    ensures octets { let s = standing_of position.now in (gave : List ℕ) × Takes (S.left source.old) (S.left source.new) gave × MatchResult result (λ whole. IsWhole s whole buf.new (head.now ++ gave)) (λ stop. StopsWithin 1048568 (IsSomeBlock s head.now) stop gave (S.left source.new)) }
{
    let total = number_at(order, head, 4);
    if !is_total(position.place, PACKET_FRONT + TAIL as u32, total) {
        return Err(Stop::Malformed);
    }
    let mut fields = [0; 20];
    take(source, &mut fields)?;
    let of_section = number_at(order, &fields, 0);
    let len = number_at(order, &fields, 12);
    if of_section as usize >= position.units.len()
        || len > CAPTURED_OCTETS_MOST
        || (total - PACKET_FRONT) as usize - TAIL < padded_len(len as usize)
    {
        return Err(Stop::Malformed);
    }
    read_captured(source, order, len, total, buf)?;
    let ticks = ticks_in(order, &fields);
    Ok(Whole {
        block: packet_of(position, of_section, ticks, len),
        size: total,
    })
}

// Passes over a block of another type, behind its type and total length.
fn read_other<S: Source>(
    source: &mut S,
    order: ByteOrder,
    head: &[u8; HEAD],
    position: &Position,
) -> Result<Whole, Stop>
    requires sound { IsSound (standing_of position.now) }
    requires order_is { position.now.order ≡ Some order }
    requires no_section { take 4 head.now ≢ section_type }
    requires no_interface { number_at order 0 head.now ≢ 1 }
    requires no_packet { number_at order 0 head.now ≢ 6 }
    ensures later { S.faults source.old ≤ S.faults source.new }
    ensures cause { IfErr result (λ stop. stop ≡ Stop.Failed → Rose (S.faults source.old) (S.faults source.new)) }
    ensures still { result ≢ Err Stop.Failed → S.faults source.new ≡ S.faults source.old }
    ensures sound { result ≡ Err Stop.Failed → IsTotal position.now.place 12 (number_at order 4 head.now) }
    ensures octets { let s = standing_of position.now in (gave : List ℕ) × Takes (S.left source.old) (S.left source.new) gave × MatchResult result (λ whole. (held : List ℕ) → IsWhole s whole held (head.now ++ gave)) (λ stop. StopsWithin 1048568 (IsSomeBlock s head.now) stop gave (S.left source.new)) }
{
    let total = number_at(order, head, 4);
    if !is_total(position.place, BLOCK_LEAST, total) {
        return Err(Stop::Malformed);
    }
    pass_over(
        source,
        total as usize - HEAD - TAIL,
        &mut [0; SCRATCH_OCTETS],
    )?;
    read_tail(source, order, total)?;
    Ok(Whole {
        block: BlockRead::Other,
        size: total,
    })
}

// Reads a block of a section behind its type and total length.
fn read_within<S: Source>(
    source: &mut S,
    order: ByteOrder,
    head: &[u8; HEAD],
    position: &Position,
    buf: &mut [u8; FRAME_OCTETS_MOST],
) -> Result<Whole, Stop>
    requires sound { IsSound (standing_of position.now) }
    requires order_is { position.now.order ≡ Some order }
    requires no_section { take 4 head.now ≢ section_type }
    ensures later { S.faults source.old ≤ S.faults source.new }
    ensures cause { IfErr result (λ stop. stop ≡ Stop.Failed → Rose (S.faults source.old) (S.faults source.new)) }
    ensures still { result ≢ Err Stop.Failed → S.faults source.new ≡ S.faults source.old }
    ensures sound { result ≡ Err Stop.Failed → IsTotal position.now.place 12 (number_at order 4 head.now) }
    ensures octets { let s = standing_of position.now in (gave : List ℕ) × Takes (S.left source.old) (S.left source.new) gave × MatchResult result (λ whole. IsWhole s whole buf.new (head.now ++ gave)) (λ stop. StopsWithin 1048568 (IsSomeBlock s head.now) stop gave (S.left source.new)) }
{
    match number_at(order, head, 0) {
        INTERFACE_TYPE => read_interface(source, order, head, position),
        PACKET_TYPE => read_packet(source, order, head, position, buf),
        _ => read_other(source, order, head, position),
    }
}

// Reads the block that begins at this place; none where the capture ends.
pub(crate) fn read_block<S: Source>(
    source: &mut S,
    position: &Position,
    buf: &mut [u8; FRAME_OCTETS_MOST],
) -> Result<Option<Whole>, Stop>
    requires sound { IsSound (standing_of position.now) }
    ensures later { S.faults source.old ≤ S.faults source.new }
    ensures cause { IfErr result (λ stop. stop ≡ Stop.Failed → Rose (S.faults source.old) (S.faults source.new)) }
    ensures still { result ≢ Err Stop.Failed → S.faults source.new ≡ S.faults source.old }
    ensures octets { (gave : List ℕ) × Takes (S.left source.old) (S.left source.new) gave × MatchResult result (λ read. IsBlockRead (standing_of position.now) read buf.new gave (S.left source.new)) (λ stop. StopsHere (standing_of position.now) stop gave (S.left source.new)) }
{
    let mut head = [0; HEAD];
    match fill(source, &mut head) {
        Filled::Whole => {}
        Filled::Short(0) if position.order.is_some() => return Ok(None),
        Filled::Short(_) => return Err(Stop::Malformed),
        Filled::Failed => return Err(Stop::Failed),
    }
    if stands_at(&head, 0, &SECTION_TYPE) {
        return Ok(Some(read_section(source, &head, position)?));
    }
    let order = position.order.ok_or(Stop::Malformed)?;
    Ok(Some(read_within(source, order, &head, position, buf)?))
}
