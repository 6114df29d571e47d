//! The reasons why a journal is not written or read.
ghost use Rattle.std.specs.Prelude.{◌≡◌};

use crate::device::DeviceFailed;
use std::alloc::AllocError;

/// The reason why a site stops: it must send nothing more, and answer nothing more. Recover another from the file.
#[derive(Clone, Copy)]
pub enum CommitFault {
    /// An allocation failed.
    NoMemory,
    /// A call of the device failed.
    Failed,
}

impl From<AllocError> for CommitFault {
    ghost use Rattle.journal.specs.declared.fault.CommitFault.TheVariants.{NoMemory};

    ghost from_gives = { λ _ e. e ≡ NoMemory };

    fn from(_error: AllocError) -> CommitFault {
        CommitFault::NoMemory
    }
}

impl From<DeviceFailed> for CommitFault {
    ghost use Rattle.journal.specs.declared.fault.CommitFault.TheVariants.{Failed};

    ghost from_gives = { λ _ e. e ≡ Failed };

    fn from(_error: DeviceFailed) -> CommitFault {
        CommitFault::Failed
    }
}

/// The reason why a journal was not opened.
#[derive(Clone, Copy)]
pub enum RecoveryFault {
    /// An allocation failed.
    NoMemory,
    /// The line at this byte offset has a right checksum, but is not a record of this replica.
    NoRecord(usize),
    /// The line at this byte offset does not have a right checksum, but a later line has: the middle is damaged.
    Damaged(usize),
    /// A call of the device failed.
    Failed,
}

impl From<AllocError> for RecoveryFault {
    ghost use Rattle.journal.specs.declared.fault.RecoveryFault.TheVariants.{NoMemory};

    ghost from_gives = { λ _ e. e ≡ NoMemory };

    fn from(_error: AllocError) -> RecoveryFault {
        RecoveryFault::NoMemory
    }
}

impl From<DeviceFailed> for RecoveryFault {
    ghost use Rattle.journal.specs.declared.fault.RecoveryFault.TheVariants.{Failed};

    ghost from_gives = { λ _ e. e ≡ Failed };

    fn from(_error: DeviceFailed) -> RecoveryFault {
        RecoveryFault::Failed
    }
}
