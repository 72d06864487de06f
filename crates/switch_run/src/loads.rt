//! The run of a load.

ghost use Rattle.std.specs.Prelude.{◌≡◌, ◌≤◌, if◌then◌else◌};
ghost use Rattle.savi_ends.specs.declared.world.Std.{Std};
ghost use Rattle.savi_ends.specs.Places.{IsReady, OthersStay};
ghost use Rattle.switch_run.specs.Loads.{IsLoadRun};
ghost use Rattle.switch_run.specs.Session.{ToldBy};

use crate::summing::{sum_up, write_summary};
use crate::top::{NO_MEMORY, WRITE_FAULT};
use load_run::replay_load;
use savi_ends::{Std, World};
use savi_segments::counts_sum_segments_up;
use std::alloc::Global;
use switch_report::tell_memory;

/// Replays the load of this seed, with so many packets, and writes the summary of its history. The answer is the status: 0,
/// 1 where there was no memory, or 6 where the summary wasn't written. O(n) in the packets.
pub fn generate<W: World>(
    alloc: Global,
    seed: u32,
    frames: u32,
    world: &mut W,
    errors: &mut W::K,
) -> u8
    requires few { frames ≤ 100000 }
    requires out { IsReady (λ k. W.K.faults k ≡ 0) ((W.book world.old).std Std.Out) }
    ensures ran { IsLoadRun W.K.written W.K.faults seed frames (ToldBy W.K.faults W.K.written errors.old errors.new) (W.book world.old) (W.book world.new) result }
    ensures others { OthersStay (W.book world.old).std (W.book world.new).std Std.Out }
{
    match replay_load(alloc, seed, frames) {
        Ok(loaded) => {
            counts_sum_segments_up();
            let written = write_summary(sum_up(&loaded.core, loaded.entries), world);
            status_by(written)
        }
        Err(_) => {
            let _put = tell_memory(errors);
            NO_MEMORY
        }
    }
}

// The status by whether the summary was written.
fn status_by(written: bool) -> u8
    ensures { result ≡ (if written then 0 else 6) }
{
    if written { 0 } else { WRITE_FAULT }
}
