//! The ports of a plan and its control in a world: the ports are opened, in the order of the plan, and all that are held are
//! kept; so are the ends of control, where the plan names them.
//!
//! The ends of a port go beside its number from the opening on, so that no two ports can be mixed up; those of a live
//! session stand in the order of the plan.
#![tactic(auto)]

mod control;
mod keeping;
mod live;
mod opening;

pub use control::{keep_control, keep_live_control, open_control, open_live_control};
pub use keeping::keep_all;
pub use live::{keep_live, open_live};
pub use opening::open_all;
