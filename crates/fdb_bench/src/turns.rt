//! The calls that are timed: those of the sources of frames, in order.

ghost use Rattle.std.specs.Prelude.{◌≡◌, ◌≤◌, ◌+◌, ◌%◌, ◌^◌, length};
ghost use Rattle.bridge_fdb.specs.Stations.{live_at};
ghost use Rattle.fdb_bench.specs.Learned.{learned_all, count_live};

use bridge_fdb::Fdb;
use savi_kinds::{Mac, Moment, Port};

/// The source of a frame.
#[derive(Clone, Copy)]
pub struct Source {
    pub mac: Mac,
    pub port: Port,
}

/// Learns each source at its port, all at one moment.
pub fn learn_all(fdb: &mut Fdb, sources: &[Source], t: Moment)
    requires { t ≤ 2 ^ 62 }
    ensures { live_at t fdb.new ≡ learned_all t (live_at t fdb.old) sources.now }
{
    for source in sources {
        fdb.learn(source.mac, source.port, t);
    }
}

/// Asks where each source is, and gives how many are live.
pub fn place_all(fdb: &Fdb, sources: &[Source], t: Moment) -> u64
    ensures { result ≡ count_live (live_at t fdb.now) sources.now }
{
    let mut live = 0;
    for source in sources {
        if fdb.place(source.mac, t).is_some() {
            live += 1;
        }
    }
    live
}
