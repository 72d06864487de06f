//! The opening of an output.

ghost use Rattle.std.specs.Prelude.{◌≡◌, ◌≤◌, ◌<◌, ◌++◌, ◌∷◌, IfNone, IfSome, length, slice_index_or, [], vec_len, vec_capacity};
ghost use Rattle.savi_ends.specs.Places.{IsReady, OthersStay};
ghost use Rattle.split_run.specs.Names.{name_in};
ghost use Rattle.split_run.specs.Runs.{HasOpenedAll};
ghost use Rattle.split_run.specs.Steps.{HasTried};

use crate::outcome::Outcome;
use pcap_io::begin;
use pcap_split::Output;
use savi_ends::{Put, World};
use savi_kinds::Text;

/// Opens the output of this interface, once, begins its capture, and holds it behind the others. The answer is what came of
/// the whole, where that fails.
pub(crate) fn begin_output<W: World>(
    names: &[Text],
    interface: u32,
    held: &mut Vec<Output<W::K>>,
    world: &mut W,
) -> Option<Outcome>
    requires named { interface < length names.now }
    requires room { vec_len held.old < vec_capacity held.old }
    requires ready { IsReady (λ k. W.K.faults k ≡ 0) ((W.book world.old).outputs (name_in names.now interface)) }
    ensures tried { HasTried W.K.written W.K.faults interface (W.book world.old).faults (W.book world.new).faults ((W.book world.old).outputs (name_in names.now interface)) ((W.book world.new).outputs (name_in names.now interface)) held.old.items held.new.items result }
    ensures capacity { vec_capacity held.old ≤ vec_capacity held.new }
    ensures still { IfNone result ((W.book world.new).faults ≡ (W.book world.old).faults) }
    ensures still_unwritten { IfSome result (λ outcome. HasOpenedAll outcome → (W.book world.new).faults ≡ (W.book world.old).faults) }
    ensures others { OthersStay (W.book world.old).outputs (W.book world.new).outputs (name_in names.now interface) }
    ensures rest { W.book world.new ≡ record (W.book world.old) { faults = (W.book world.new).faults; outputs = (W.book world.new).outputs } }
{
    let Ok(mut sink) = world.output(names[interface as usize].as_str()) else {
        return Some(Outcome::NoOutput { interface });
    };
    let put = begin(&mut sink);
    add(held, Output { interface, sink });
    match put {
        Put::Done => None,
        Put::Failed => Some(Outcome::Unwritten { interface }),
    }
}

// Adds an output for which there is room.
fn add<K>(held: &mut Vec<Output<K>>, output: Output<K>)
    requires { vec_len held.old < vec_capacity held.old }
    ensures items { held.new.items ≡ held.old.items ++ output ∷ [] }
    ensures capacity { vec_capacity held.old ≤ vec_capacity held.new }
{
    match held.push(output) {
        Ok(()) => {}
        Err(_) => unreachable!(),
    }
}
