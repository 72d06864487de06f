ghost use Rattle.std.specs.Prelude.{◌≡◌, ◌≤◌, ◌<◌, ◌^◌, ◌⊎◌, ℕ, List, IfSome, IfNone, MatchOption, length, take};
ghost use Rattle.cli_lang.specs.Arrivals.{Line, Says};
ghost use Rattle.cli_lang.specs.Readers.{ReadsClock};

use crate::words::first_word;
use savi_ends::Clock;
use savi_kinds::{CONTROL_LINE_OCTETS, read_decimal};

/// No line ends past this place of its input: 2^62.
pub(crate) const LAST_PLACE: u64 = 1 << 62;

/// What a line says: its stamp (ms), and the octets of its command, which stand at the front of the buffer.
#[derive(Clone, Copy)]
pub(crate) struct Said {
    pub stamp: u64,
    pub len: u32,
}

/// Reads the text of a line that ends at this place. `None` where the place is past 2^62, or the text says nothing;
/// then the buffer stays as it was.
pub(crate) fn read_text<C: Clock>(
    text: &[u8],
    end: u64,
    live: bool,
    clock: &mut C,
    buf: &mut [u8; CONTROL_LINE_OCTETS],
) -> Option<Said>
    requires { length text.now ≤ 120 }
    ensures some { IfSome result (λ said. (end ≤ 2 ^ 62) × (said.len ≤ 120) × Says live text.now (record { stamp = said.stamp; command = take said.len buf.new })) }
    ensures none { IfNone result ((2 ^ 62 < end) ⊎ ((line : Line) → ¬ Says live text.now line)) }
    ensures kept { IfNone result (buf.new ≡ buf.old) }
    ensures clock { MatchOption result (clock.new ≡ clock.old) (λ said. ReadsClock C.readings live clock.old clock.new said.stamp) }
{
    if end > LAST_PLACE {
        return None;
    }
    if live {
        let len = put_command(text, buf);
        let stamp = clock.now();
        return Some(Said { stamp, len });
    }
    let (digits, command) = first_word(text)?;
    let stamp = read_decimal(digits, u64::MAX)?;
    let len = put_command(command, buf);
    Some(Said { stamp, len })
}

// Copies a command to the front of the buffer, and tells its length.
fn put_command(command: &[u8], buf: &mut [u8; CONTROL_LINE_OCTETS]) -> u32
    requires { length command.now ≤ 120 }
    ensures octets { take result buf.new ≡ command.now }
    ensures len { result ≡ length command.now }
{
    buf[..command.len()].copy_from_slice(command);
    command.len() as u32
}
