//! For what a link waits: what its last call that answered `NotYet` wanted, until a rest or
//! another call. Nothing here is an error to call.

#[derive(Clone, Copy, Debug, PartialEq, Eq)]
pub(crate) enum LinkWait {
    No,
    ForRead,
    ForWrite,
}
