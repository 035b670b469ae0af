//! Why a form gives nothing.
use std::alloc::{AllocError, AllocFailed};

/// Why a form gives nothing.
#[derive(Clone, Copy, PartialEq, Eq, Debug)]
pub enum FormFault {
    /// It has no meaning where it stands.
    NoMeaning,
    NoMemory,
}

impl From<AllocError> for FormFault {
    fn from(_error: AllocError) -> FormFault {
        FormFault::NoMemory
    }
}

impl<T: Drop> From<AllocFailed<T>> for FormFault {
    fn from(_error: AllocFailed<T>) -> FormFault {
        FormFault::NoMemory
    }
}
