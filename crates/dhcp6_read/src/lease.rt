// The options within an IA and within an address. An address takes 28 octets at least, its option's code and length
// among them, so that those of 1,456 octets find room in 52 places.

ghost use Rattle.std.specs.Prelude.{◌≡◌, ◌+◌, ◌*◌, ◌<◌, ◌≤◌, List, ℕ, [], length, OnOk};
ghost use Rattle.arrayvec.specs.ArrayVec.{array_vec_len};
ghost use Rattle.dhcp6_read.specs.Options.{OptionsRead, GivesRows};
ghost use Rattle.dhcp6_read.specs.Levels.{row_says, in_address, address_says, in_ia, ia_says};
ghost use Rattle.dhcp6_read.specs.Steps.{TellsLeases};

use crate::message::{DhcpFault, Lease, Leases};
use crate::option::{is_void, split_option};
use byteorder::{BigEndian, ByteOrder};
use savi_kinds::Addr;

/// Code of an IA Address (RFC 8415 section 21.6).
const IA_ADDRESS: u16 = 5;
/// Code of a status (RFC 8415 section 21.13).
pub const STATUS_CODE: u16 = 13;

/// Octets of an address before its options (RFC 8415 section 21.6).
const ADDRESS_FIXED_LEN: usize = 24;
/// Where the valid lifetime of an address stands (RFC 8415 section 21.6).
const VALID_AT: usize = 20;

/// Reads an IA, whose options stand behind its fixed octets, and puts its leases behind those before unless a status
/// in it voids them. It voids nothing beside it, so an `Ok` is false. After an `Err` nothing is known of the leases. O(n).
pub fn read_ia(
    kind: u8,
    fixed: usize,
    content: &[u8],
    leases: &mut Leases,
) -> Result<bool, DhcpFault>
    requires room { 28 * array_vec_len leases.old + length content.now ≤ 1456 }
    ensures tells { (row_of : List ℕ → OptionsRead) → GivesRows row_of
        → TellsLeases (ia_says row_of fixed kind content.now) result leases.old.items leases.new.items }
    ensures room { OnOk result (28 * array_vec_len leases.new ≤ 28 * array_vec_len leases.old + length content.now) }
{
    if content.len() < fixed {
        return Err(DhcpFault::Ia);
    }
    let before = leases.len();
    if read_ia_options(kind, &content[fixed..], leases)? {
        leases.truncate(before);
    }
    Ok(false)
}

/// Reads the options of an IA: whether a status among them voids its addresses. O(n).
fn read_ia_options(kind: u8, options: &[u8], leases: &mut Leases) -> Result<bool, DhcpFault>
    requires room { 28 * array_vec_len leases.old + length options.now ≤ 1456 }
    ensures tells { (row_of : List ℕ → OptionsRead) → GivesRows row_of
        → TellsLeases (row_says (in_ia row_of kind) (row_of options.now)) result leases.old.items leases.new.items }
    ensures room { OnOk result (28 * array_vec_len leases.new ≤ 28 * array_vec_len leases.old + length options.now) }
{
    let mut void = false;
    let mut rest = options;
    'option: while !rest.is_empty() {
        let front = split_option(rest)?;
        let voids = read_in_ia(kind, front.code, front.content, leases)?;
        void |= voids;
        rest = front.behind;
    }
    Ok(void)
}

/// Reads an option of an IA: whether it voids the IA's addresses. O(n).
fn read_in_ia(kind: u8, code: u16, content: &[u8], leases: &mut Leases) -> Result<bool, DhcpFault>
    requires room { 28 * array_vec_len leases.old + 4 + length content.now ≤ 1456 }
    ensures tells { (row_of : List ℕ → OptionsRead) → GivesRows row_of
        → TellsLeases (in_ia row_of kind code content.now) result leases.old.items leases.new.items }
    ensures room { OnOk result (28 * array_vec_len leases.new ≤ 28 * array_vec_len leases.old + 4 + length content.now) }
{
    match code {
        IA_ADDRESS => read_address(kind, content, leases),
        STATUS_CODE => is_void(kind, content),
        _ => Ok(false),
    }
}

/// Reads an address, and puts it behind the leases before unless a status in it voids it. It voids nothing beside it,
/// so an `Ok` is false. O(n).
fn read_address(kind: u8, content: &[u8], leases: &mut Leases) -> Result<bool, DhcpFault>
    requires room { 28 * array_vec_len leases.old + 4 + length content.now ≤ 1456 }
    ensures tells { (row_of : List ℕ → OptionsRead) → GivesRows row_of
        → TellsLeases (address_says row_of kind content.now) result leases.old.items leases.new.items }
    ensures room { OnOk result (28 * array_vec_len leases.new ≤ 28 * array_vec_len leases.old + 4 + length content.now) }
{
    if content.len() < ADDRESS_FIXED_LEN {
        return Err(DhcpFault::Address);
    }
    if !read_address_options(kind, &content[ADDRESS_FIXED_LEN..])? {
        leases.push(Lease {
            address: Addr(BigEndian::read_u128(content)),
            valid: BigEndian::read_u32(&content[VALID_AT..]),
        });
    }
    Ok(false)
}

/// Reads the options of an address: whether a status among them voids it. O(n).
fn read_address_options(kind: u8, options: &[u8]) -> Result<bool, DhcpFault>
    ensures { (row_of : List ℕ → OptionsRead) → GivesRows row_of
        → TellsLeases (row_says (in_address kind) (row_of options.now)) result [] [] }
{
    let mut void = false;
    let mut rest = options;
    'option: while !rest.is_empty() {
        let front = split_option(rest)?;
        let voids = read_in_address(kind, front.code, front.content)?;
        void |= voids;
        rest = front.behind;
    }
    Ok(void)
}

/// Reads an option of an address: whether it voids the address. O(1).
fn read_in_address(kind: u8, code: u16, content: &[u8]) -> Result<bool, DhcpFault>
    ensures { TellsLeases (in_address kind code content.now) result [] [] }
{
    match code {
        STATUS_CODE => is_void(kind, content),
        _ => Ok(false),
    }
}
