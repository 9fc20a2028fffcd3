//! Why a line isn't audited.
use q_model::NoMemory;
use q_trace::EntryError;
use thiserror::Error;

/// Why a line isn't audited.
#[derive(Clone, Copy, Debug, PartialEq, Eq, Error)]
pub enum AuditError {
    #[error("no memory")]
    NoMemory = 1,
    /// No entry has this line.
    #[error("not a line of a trace")]
    BadEntry = 2,
}

impl From<NoMemory> for AuditError {
    ghost use Rattle.std.specs.Prelude.{◌≡◌};
    ghost use Rattle.q_audit.specs.declared.error.AuditError.TheVariants.{NoMemory};

    ghost from_gives = { λ _ e. e ≡ NoMemory };

    fn from(_: NoMemory) -> Self {
        AuditError::NoMemory
    }
}

impl From<EntryError> for AuditError {
    ghost use Rattle.std.specs.Prelude.{◌≡◌};
    ghost use Rattle.q_audit.specs.Errors.{audit_error};

    ghost from_gives = { λ error e. e ≡ audit_error error };

    fn from(error: EntryError) -> Self {
        match error {
            EntryError::NoMemory => AuditError::NoMemory,
            EntryError::BadEntry => AuditError::BadEntry,
        }
    }
}
