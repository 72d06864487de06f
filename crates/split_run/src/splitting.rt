//! The split of a capture, from its opening to the keeping of all ends.

ghost use Rattle.std.specs.Prelude.{◌≡◌, ◌≤◌, [], length, vec_capacity};
ghost use Rattle.savi_ends.specs.Places.{IsReady, OthersStay};
ghost use Rattle.split_run.specs.Names.{AreNames, AreNamesApart, name_in};
ghost use Rattle.split_run.specs.Runs.{IsNamed, IsSplitRun};
ghost use Rattle.split_run.specs.Steps.{HasSplit};

use crate::keeping::keep_outputs;
use crate::opening::begin_output;
use crate::outcome::Outcome;
use pcap_split::{Output, SplitGot, Splitter};
use savi_ends::World;
use savi_kinds::Text;

/// Splits the capture of this name into outputs of these names, which are held meanwhile in `held`.
///
/// The capture is opened, and then the output of each interface from 0 to 15 that is Ethernet, where it begins. The work
/// stops at the first of them that can't be opened, at a write or a read that fails, and at a block that is malformed. All
/// that was opened is kept in the world again. It takes no memory. O(n) in the octets of the capture.
pub fn split_file<W: World>(
    file: &str,
    names: &[Text],
    mut held: Vec<Output<W::K>>,
    world: &mut W,
) -> Outcome
    requires names { AreNames file.now names.now }
    requires empty { held.items ≡ [] }
    requires room { 16 ≤ vec_capacity held }
    requires inputs { (name : _) → IsReady (λ s. W.S.faults s ≡ 0) ((W.book world.old).inputs name) }
    requires outputs { (name : _) → IsReady (λ k. W.K.faults k ≡ 0) ((W.book world.old).outputs name) }
    ensures ran { IsSplitRun W.S.left W.K.written W.S.faults W.K.faults file.now (W.book world.old) (W.book world.new) result }
    ensures named { IsNamed result }
{
    let Ok(mut source) = world.input(file) else {
        held.destroy_empty();
        return Outcome::NoInput;
    };
    let outcome = split_source(names, &mut source, &mut held, world);
    world.keep_input(source);
    keep_outputs(names, held, world);
    outcome
}

// Splits what a source has left, and holds the outputs.
fn split_source<W: World>(
    names: &[Text],
    source: &mut W::S,
    held: &mut Vec<Output<W::K>>,
    world: &mut W,
) -> Outcome
    requires count { length names.now ≡ 16 }
    requires apart { AreNamesApart names.now }
    requires empty { held.old.items ≡ [] }
    requires room { 16 ≤ vec_capacity held.old }
    requires outputs { (name : _) → IsReady (λ k. W.K.faults k ≡ 0) ((W.book world.old).outputs name) }
    ensures { HasSplit W.S.left W.K.written W.S.faults W.K.faults (name_in names.now) source.old source.new (W.book world.old) (W.book world.new) held.new.items result }
{
    let mut splitter = Splitter::new();
    loop {
        match splitter.go_on(source, held.as_mut_slice()) {
            SplitGot::Opens { interface } => {
                if let Some(outcome) = begin_output(names, interface, held, world) {
                    return outcome;
                }
            }
            SplitGot::Unwritten { interface } => return Outcome::Unwritten { interface },
            SplitGot::Failed => return Outcome::Unread,
            SplitGot::Malformed { at } => {
                return Outcome::Malformed {
                    at,
                    counts: splitter.counts(),
                };
            }
            SplitGot::End => return Outcome::Split(splitter.counts()),
        }
    }
}
