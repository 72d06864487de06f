ghost use Rattle.std.specs.Prelude.{ℕ, IfSome, IfNone};
ghost use Rattle.pcap_split.specs.Going.{IsOutputOf};

use crate::output::Output;

// Where the output of this interface stands. O(n) in the outputs, at most 16.
pub(crate) fn place_of<K>(outputs: &[Output<K>], interface: u32) -> Option<usize>
    ensures some { IfSome result (λ place. IsOutputOf outputs.now place interface) }
    ensures none { IfNone result ((place : ℕ) → IsOutputOf outputs.now place interface → ⊥) }
{
    for place in 0..outputs.len() {
        if outputs[place].interface == interface {
            return Some(place);
        }
    }
    None
}
