// Why a command ends before it is done.
use crate::faults::Refused;
use std::alloc::{AllocError, AllocFailed};
use std::io;
use std::num::ParseIntError;

/// Words that name nothing that a command takes.
#[derive(Clone, Copy)]
pub struct NotUnderstood;

/// Why a command ends before it is done.
#[derive(Drop)]
pub enum Stop {
    /// Its words are not understood.
    NotUnderstood,
    /// What it is given is refused.
    Refused(Refused),
    /// Memory, a file, the clock or the output fails.
    Failed(anyhow::Error),
}

impl From<ParseIntError> for NotUnderstood {
    fn from(_e: ParseIntError) -> NotUnderstood {
        NotUnderstood
    }
}

impl From<NotUnderstood> for Stop {
    fn from(_e: NotUnderstood) -> Stop {
        Stop::NotUnderstood
    }
}

impl From<Refused> for Stop {
    fn from(refused: Refused) -> Stop {
        Stop::Refused(refused)
    }
}

impl From<anyhow::Error> for Stop {
    fn from(e: anyhow::Error) -> Stop {
        Stop::Failed(e)
    }
}

impl From<io::Error> for Stop {
    fn from(e: io::Error) -> Stop {
        Stop::Failed(e.into())
    }
}

impl From<AllocError> for Stop {
    fn from(e: AllocError) -> Stop {
        Stop::Failed(e.into())
    }
}

impl<T: Drop> From<AllocFailed<T>> for Stop {
    fn from(e: AllocFailed<T>) -> Stop {
        AllocError::from(e).into()
    }
}
