use std::alloc::{AllocError, AllocFailed};
use thiserror::Error;

/// Memory ran out.
#[derive(Clone, Copy, Debug, PartialEq, Eq, Error)]
#[error("out of memory")]
pub struct NoMemory;

/// So that `?` carries a refused allocation on.
impl From<AllocError> for NoMemory {
    fn from(refused: AllocError) -> NoMemory {
        NoMemory
    }
}

/// So that `?` carries a refused `push` on. The value that was not stored is dropped.
impl<T: Drop> From<AllocFailed<T>> for NoMemory {
    fn from(refused: AllocFailed<T>) -> NoMemory {
        NoMemory
    }
}

/// A label, or none.
pub type Tag = Option<u32>;

/// What a request asks of the label at one of its ends.
#[derive(Clone, Copy, Debug, PartialEq, Eq)]
pub enum Wish {
    Any,
    Value(u32),
}

#[derive(Clone, Copy, Debug, PartialEq, Eq, PartialOrd, Ord)]
pub struct PortNo(pub u32);

#[derive(Clone, Copy, Debug, PartialEq, Eq, PartialOrd, Ord)]
pub struct StateNo(pub u64);

#[derive(Clone, Copy, Debug, PartialEq, Eq, PartialOrd, Ord)]
pub struct FrameNo(pub u64);

#[derive(Clone, Copy, Debug, PartialEq, Eq, PartialOrd, Ord)]
pub struct StepNo(pub u64);

/// Where the segments of a potential begin: at the request, or at a place that an adaptation enters.
#[derive(Clone, Copy, Debug, PartialEq, Eq, PartialOrd, Ord)]
pub enum Root {
    Request,
    Entry(StateNo),
}
