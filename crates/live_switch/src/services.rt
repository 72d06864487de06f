//! What the loop over segments has of the ends of a session.

use journal_write::{Journal, Told};
use live_control::ControlWorker;
use live_input::Ingress;
use live_output::Output;
use live_ticker::TickerWorker;

/// What serves a port behind its reader: who judges what comes there, and who writes its output.
#[derive(Drop)]
pub(crate) struct PortService<K> {
    pub(crate) judge: Ingress,
    pub(crate) writer: Output<K>,
}

/// What serves the ports, the first of a plan, in its order, control and the ticker.
#[derive(Drop)]
pub(crate) struct Service<K, C> {
    pub(crate) ports: Vec<PortService<K>>,
    pub(crate) control: ControlWorker<K>,
    pub(crate) ticker: TickerWorker<C>,
}

/// What goes on from one segment to the next: what serves the ends, the journal, and what is told of the segments that are
/// closed.
#[derive(Drop)]
pub(crate) struct Course<K, C> {
    pub(crate) service: Service<K, C>,
    pub(crate) journal: Journal<K>,
    pub(crate) told: Told,
}
