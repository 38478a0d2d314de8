//! Why a line has no answer.
use std::alloc::{AllocError, AllocFailed};

/// Why a line has no answer.
#[derive(Debug, Drop)]
pub enum RowError {
    /// It isn't a row, or no row of its subject.
    NoRow,
    /// Allocation failed.
    Memory(AllocError),
}

impl From<AllocError> for RowError {
    fn from(error: AllocError) -> RowError {
        RowError::Memory(error)
    }
}

impl<T: Drop> From<AllocFailed<T>> for RowError {
    fn from(_error: AllocFailed<T>) -> RowError {
        RowError::Memory(AllocError)
    }
}
