//! The engine: the decision core of one life, and what is counted and kept beside it.
use q_core::Core;
use q_places::Places;
use q_transport::Table;

/// A life on a spool: its core, and the table by which its lines are written. It keeps no address
/// and no content.
#[derive(Drop)]
pub struct Engine {
    /// In a box, so that who holds an engine neither moves the core's parts nor lets them go one by
    /// one.
    pub(crate) core: Box<Core>,
    pub(crate) table: Table,
    /// The generation of this life.
    pub(crate) generation: u32,
    /// How many messages arrived in this life.
    pub(crate) arrivals: u32,
    /// How often a job went before another in this life.
    pub(crate) preempts: u64,
    /// Places in the queue files of messages in memory, so that no file is read from its beginning
    /// again.
    pub(crate) places: Places,
}
