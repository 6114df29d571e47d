//! Errors of the command line.
ghost use Rattle.std.specs.Prelude.{◌≡◌};
ghost use Rattle.program_lines.specs.Faults.{is_help, is_memory};
ghost use Rattle.program_lines.specs.inner.ClapErrors.{line_fault_of};

use clap::error::ErrorKind;
use plain::NoMemory;
use thiserror::Error;

/// The reason why arguments are not a command. Its `Display` is the text to print.
#[derive(Drop, Debug, Error)]
pub enum LineFault {
    /// Help, or the version, is requested.
    #[error(transparent)]
    Help(clap::Error),
    /// clap rejects the arguments.
    #[error(transparent)]
    Words(clap::Error),
    /// The value of `--site` is not a site name. clap accepted the arguments.
    #[error("error: the value of '--site' is not a site name: 1 to 32 ASCII letters, digits, '-', '_' or '.'\n")]
    Site,
    /// clap accepted the arguments, but a command or a required option is missing, or a number is invalid. This is not
    /// expected, since clap is to reject such arguments.
    #[error("error: an option is missing\n")]
    Incomplete,
    /// An argument is not UTF-8. `line_of` never returns this, since its arguments are strings.
    #[error("error: an argument is not UTF-8\n")]
    NotText,
    /// Out of memory.
    #[error("error: out of memory\n")]
    NoMemory,
}

impl From<NoMemory> for LineFault {
    ghost use Rattle.program_lines.specs.declared.fault.LineFault.TheVariants.{NoMemory as memory};

    ghost from_gives = { λ _ fault. fault ≡ memory };

    fn from(_error: NoMemory) -> LineFault {
        LineFault::NoMemory
    }
}

/// Returns whether help or the version is requested.
fn is_help(kind: ErrorKind) -> bool
    ensures { result ≡ is_help kind }
{
    matches!(kind, ErrorKind::DisplayHelp | ErrorKind::DisplayVersion)
}

/// Returns whether an allocation failed.
fn is_memory(kind: ErrorKind) -> bool
    ensures { result ≡ is_memory kind }
{
    matches!(kind, ErrorKind::OutOfMemory)
}

/// Returns what an error of clap means: a request for help, out of memory, or an error of the arguments.
pub(crate) fn line_fault_of(error: clap::Error) -> LineFault
    ensures { result ≡ line_fault_of error }
{
    let kind = error.kind();
    if is_help(kind) {
        return LineFault::Help(error);
    }
    if is_memory(kind) {
        return LineFault::NoMemory;
    }
    LineFault::Words(error)
}
