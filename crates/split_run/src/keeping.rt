//! The keeping of the outputs that are held.

ghost use Rattle.std.specs.Prelude.{◌≡◌, ◌<◌, ◌≢◌, ℕ, List, true, All, Some, length};
ghost use Rattle.split_run.specs.Names.{name_in, AreNamesApart};
ghost use Rattle.split_run.specs.Steps.{HaveOwnInterfaces};

use pcap_split::Output;
use savi_ends::World;
use savi_kinds::Text;

/// Keeps each of these outputs in its own place, under the name of its interface. O(outputs).
pub(crate) fn keep_outputs<W: World>(names: &[Text], mut held: Vec<Output<W::K>>, world: &mut W)
    requires apart { AreNamesApart names.now }
    requires own { HaveOwnInterfaces held.items }
    requires named { All (λ o. o.interface < length names.now) held.items }
    requires out { All (λ o. ((W.book world.old).outputs (name_in names.now o.interface)).is_out ≡ true) held.items }
    ensures kept { All (λ o. ((W.book world.new).outputs (name_in names.now o.interface)).stands ≡ Some o.sink) held.items }
    ensures others { (name : List ℕ) → All (λ o. name_in names.now o.interface ≢ name) held.items → (W.book world.new).outputs name ≡ (W.book world.old).outputs name }
    ensures rest { W.book world.new ≡ record (W.book world.old) { outputs = (W.book world.new).outputs } }
{
    while let Some(Output { interface, sink }) = held.pop() {
        world.keep_output(names[interface as usize].as_str(), sink);
    }
    held.destroy_empty();
}
