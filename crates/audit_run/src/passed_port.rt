//! Entries whose frame passed.

ghost use Rattle.std.specs.Prelude.{◌≡◌, if◌then◌else◌, ℕ, List, Some, None};
ghost use Rattle.std.specs.Option.{option_map};
ghost use Rattle.savi_history.specs.Summary.{is_pass};
ghost use Rattle.v4_snoop.specs.Reasons.{passed_at};
ghost use Rattle.audit_run.specs.PassedFrames.{frame_passed};

use savi_kinds::{Act, Entry, Port, Verdict};

/// The port at which the frame of an entry came in, where the entry is that of a frame that passed. O(1).
pub(crate) fn passed_port(e: &Entry) -> Option<Port>
    ensures { (octets : List ℕ) → frame_passed (record { entry = e.now; octets = octets }) ≡ option_map (λ port. passed_at port e.now.moment octets) result }
{
    match e.act {
        Act::Frame { port, .. } => port_if(has_passed(e.verdict), port),
        _ => None,
    }
}

// The port, where this is so.
fn port_if(is: bool, port: Port) -> Option<Port>
    ensures { result ≡ (if is then Some port else None) }
{
    if is { Some(port) } else { None }
}

// Whether a verdict is one of a frame that passed.
fn has_passed(verdict: Option<Verdict>) -> bool
    ensures { result ≡ is_pass verdict }
{
    matches!(verdict, Some(Verdict::Pass(_)))
}
