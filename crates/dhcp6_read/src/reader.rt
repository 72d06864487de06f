// A message, and the options in it.

ghost use Rattle.std.specs.Prelude.{◌≡◌, ◌+◌, ◌*◌, ◌<◌, ◌≤◌, ◌==◌, ◌||◌, List, ℕ, Result, Some, None, [], ◌∷◌, length, IfOk, OnOk, MatchResult, if◌then◌else◌};
ghost use Rattle.std.specs.Option.{option_or};
ghost use Rattle.arrayvec.specs.ArrayVec.{array_vec_len};
ghost use Rattle.dhcp6_read.specs.declared.message.Dhcp.{Dhcp};
ghost use Rattle.dhcp6_read.specs.declared.message.DhcpFault.{DhcpFault};
ghost use Rattle.dhcp6_read.specs.Options.{OptionsRead, GivesRows};
ghost use Rattle.dhcp6_read.specs.Levels.{row_says, in_message, duid_says};
ghost use Rattle.dhcp6_read.specs.Message.{Reads, is_relayed, duid_in, is_rapid};
ghost use Rattle.dhcp6_read.specs.Steps.{TellsLeases};

use crate::lease::{STATUS_CODE, read_ia};
use crate::message::{Dhcp, DhcpFault, Duid, Leases, RELAY_FORW, RELAY_REPL};
use crate::option::{is_void, split_option};
use byteorder::{BigEndian, ByteOrder};

/// Octets of a message before its options (RFC 8415 section 8).
const MESSAGE_HEADER_LEN: usize = 4;
/// Where the transaction id stands (RFC 8415 section 8).
const TRANSACTION_ID_AT: usize = 1;

/// Code of a client identifier (RFC 8415 section 21.2).
const CLIENT_ID: u16 = 1;
/// Code of an identity association for addresses (RFC 8415 section 21.4).
const IA_NA: u16 = 3;
/// Code of an identity association for temporary addresses (RFC 8415 section 21.5).
const IA_TA: u16 = 4;
/// Code of rapid commit (RFC 8415 section 21.14).
const RAPID_COMMIT: u16 = 14;

/// Octets of an IA_NA before its options: IAID, T1 and T2 (RFC 8415 section 21.4).
const IA_NA_FIXED_LEN: usize = 12;
/// Octets of an IA_TA before its options: IAID (RFC 8415 section 21.5).
const IA_TA_FIXED_LEN: usize = 4;

/// The fewest octets of a DUID (RFC 8415 section 11.1).
const DUID_LEN_LEAST: usize = 3;

/// What a message says, or the fault that comes first in it. The message, from its type octet on, has at most 1,456
/// octets. Relay-forw and Relay-repl messages are read no further than their first 4 octets. O(n).
pub fn dhcp(message: &[u8]) -> Result<Dhcp, DhcpFault>
    requires { length message.now ≤ 1456 }
    ensures reading { Reads message.now result }
    ensures only { (other : Result Dhcp DhcpFault) → Reads message.now other → other ≡ result }
    ensures few { IfOk result (λ dhcp. array_vec_len dhcp.leases ≤ 51) }
{
    if message.len() < MESSAGE_HEADER_LEN {
        return Err(DhcpFault::Short);
    }
    let mut dhcp = Dhcp {
        kind: message[0],
        tid: BigEndian::read_u24(&message[TRANSACTION_ID_AT..]),
        duid: None,
        rapid: false,
        leases: Leases::new(),
    };
    if is_relay_message(dhcp.kind) {
        return Ok(dhcp);
    }
    let void = read_options(&message[MESSAGE_HEADER_LEN..], &mut dhcp)?;
    if void {
        dhcp.leases.clear();
    }
    Ok(dhcp)
}

/// Whether relays send each other messages of this type. O(1).
fn is_relay_message(kind: u8) -> bool
    ensures { result ≡ is_relayed kind }
{
    matches!(kind, RELAY_FORW | RELAY_REPL)
}

/// Reads the options of a message: whether a status among them voids its addresses. After an `Err` nothing is known
/// of the message. O(n).
fn read_options(options: &[u8], dhcp: &mut Dhcp) -> Result<bool, DhcpFault>
    requires room { 28 * array_vec_len dhcp.old.leases + length options.now ≤ 1456 }
    ensures tells { (row_of : List ℕ → OptionsRead) → GivesRows row_of
        → TellsLeases (row_says (in_message row_of dhcp.old.kind) (row_of options.now)) result dhcp.old.leases.items dhcp.new.leases.items }
    ensures room { OnOk result (28 * array_vec_len dhcp.new.leases ≤ 28 * array_vec_len dhcp.old.leases + length options.now) }
    ensures kind { OnOk result (dhcp.new.kind ≡ dhcp.old.kind) }
    ensures tid { OnOk result (dhcp.new.tid ≡ dhcp.old.tid) }
    ensures duid { OnOk result ((row_of : List ℕ → OptionsRead) → GivesRows row_of
        → dhcp.new.duid ≡ option_or dhcp.old.duid (duid_in (row_of options.now).options)) }
    ensures rapid { OnOk result ((row_of : List ℕ → OptionsRead) → GivesRows row_of
        → dhcp.new.rapid ≡ (dhcp.old.rapid || is_rapid (row_of options.now).options)) }
{
    let mut void = false;
    let mut rest = options;
    'option: while !rest.is_empty() {
        let front = split_option(rest)?;
        let voids = read_option(front.code, front.content, dhcp)?;
        void |= voids;
        rest = front.behind;
    }
    Ok(void)
}

/// Reads an option of a message: whether it voids the message's addresses. O(n).
fn read_option(code: u16, content: &[u8], dhcp: &mut Dhcp) -> Result<bool, DhcpFault>
    requires room { 28 * array_vec_len dhcp.old.leases + length content.now ≤ 1456 }
    ensures tells { (row_of : List ℕ → OptionsRead) → GivesRows row_of
        → TellsLeases (in_message row_of dhcp.old.kind code content.now) result dhcp.old.leases.items dhcp.new.leases.items }
    ensures room { OnOk result (28 * array_vec_len dhcp.new.leases ≤ 28 * array_vec_len dhcp.old.leases + length content.now) }
    ensures kind { OnOk result (dhcp.new.kind ≡ dhcp.old.kind) }
    ensures tid { OnOk result (dhcp.new.tid ≡ dhcp.old.tid) }
    ensures duid { OnOk result (dhcp.new.duid
        ≡ option_or dhcp.old.duid (if code == 1 then Some (record { items = content.now }) else None)) }
    ensures rapid { OnOk result (dhcp.new.rapid ≡ (dhcp.old.rapid || (code == 14))) }
{
    match code {
        CLIENT_ID => {
            let duid = duid_of(content)?;
            keep_first(&mut dhcp.duid, duid);
            Ok(false)
        }
        IA_NA => read_ia(dhcp.kind, IA_NA_FIXED_LEN, content, &mut dhcp.leases),
        IA_TA => read_ia(dhcp.kind, IA_TA_FIXED_LEN, content, &mut dhcp.leases),
        STATUS_CODE => is_void(dhcp.kind, content),
        RAPID_COMMIT => {
            dhcp.rapid = true;
            Ok(false)
        }
        _ => Ok(false),
    }
}

/// The DUID that is the content of an option. O(1).
fn duid_of(content: &[u8]) -> Result<Duid, DhcpFault>
    ensures { MatchResult result
        (λ duid. ((duid_says content.now).faults ≡ []) × (duid.items ≡ content.now))
        (λ fault. (duid_says content.now).faults ≡ fault ∷ []) }
{
    if content.len() < DUID_LEN_LEAST {
        return Err(DhcpFault::Duid);
    }
    match Duid::try_from(content) {
        Ok(duid) => Ok(duid),
        Err(_) => Err(DhcpFault::Duid),
    }
}

/// Keeps the first of the DUIDs. O(1).
fn keep_first(first: &mut Option<Duid>, duid: Duid)
    ensures { first.new ≡ option_or first.old (Some duid) }
{
    if first.is_none() {
        *first = Some(duid);
    }
}
