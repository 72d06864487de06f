//! What each kind of step tells.
use crate::board::View;
use crate::kept::Kept;
use atomic_table::{Join, Play, Split};

pub(crate) struct Draw;

impl<V> Play<Option<V>, View> for Draw {
    ghost use Rattle.table_lock.specs.Plays.{drawn};

    ghost then = { drawn };
}

pub(crate) struct Look;

impl<V: Kept> Play<Option<V>, View> for Look {
    ghost use Rattle.table_lock.specs.Plays.{looked};

    ghost then = { looked V.history V.fixed };
}

pub(crate) struct Make;

impl<V: Kept> Play<Option<V>, View> for Make {
    ghost use Rattle.table_lock.specs.Plays.{made};

    ghost then = { made V.history };
}

pub(crate) struct PassOn;

impl<V> Play<Option<V>, View> for PassOn {
    ghost use Rattle.table_lock.specs.Plays.{passed};

    ghost then = { passed };
}

pub(crate) struct Deal;

impl Split<View> for Deal {
    ghost use Rattle.table_lock.specs.Plays.{one_more, newcomer};

    ghost left = { one_more };

    ghost right = { newcomer };
}

pub(crate) struct Together;

impl Join<View> for Together {
    ghost use Rattle.table_lock.specs.Plays.{both, spent};

    ghost both = { both };

    ghost spent = { spent };
}
