//! Reading the files of a run.
ghost use Rattle.std.specs.Prelude.{◌≡◌, Ok, MatchResult, option_map};
ghost use Rattle.std.specs.Process.{exit_status};
ghost use Rattle.program.specs.Events.{read, Runs};
ghost use Rattle.program.specs.inner.FileReads.{found_as, IsFound, IsUnread, IsUnreadIfNamed, IsFailedRead};

use crate::device::FileFault;
use crate::host::Host;
use crate::report::report_file;
use std::process::ExitCode;

/// Returns the content of a file; if it cannot be read, reports that, and returns the status of the run as the error.
pub(crate) fn read_file<H: Host>(host: &mut H, name: &str) -> Result<Vec<u8>, ExitCode>
    ensures { MatchResult result (λ bytes. H.does host.old (read name.now (Ok bytes.items)) host.new)
        (λ end. Runs H.does host.old host.new (λ events. IsUnread name.now events (exit_status end))) }
{
    match host.read(name) {
        Ok(bytes) => Ok(bytes),
        Err(fault) => Err(report_file(host, name, fault)),
    }
}

/// Reads a file like [`read_file`] if a name is given; else returns `None`.
pub(crate) fn read_if_named<H: Host>(
    host: &mut H,
    name: Option<&str>,
) -> Result<Option<Vec<u8>>, ExitCode>
    ensures { MatchResult result
        (λ found. IsFound H.does (option_map (λ s. s.now) name.entry) (option_map (λ bytes. bytes.items) found)
        host.old host.new)
        (λ end. Runs H.does host.old host.new
        (λ events. IsUnreadIfNamed (option_map (λ s. s.now) name.entry) events (exit_status end))) }
{
    match name {
        Some(name) => match read_file(host, name) {
            Ok(bytes) => Ok(Some(bytes)),
            Err(end) => Err(end),
        },
        None => Ok(None),
    }
}

/// Reads a file like [`read_file`], but returns `None` if the file is missing.
pub(crate) fn read_if_there<H: Host>(host: &mut H, name: &str) -> Result<Option<Vec<u8>>, ExitCode>
    ensures { MatchResult result
        (λ found. H.does host.old (read name.now (found_as (option_map (λ bytes. bytes.items) found))) host.new)
        (λ end. Runs H.does host.old host.new (λ events. IsFailedRead name.now events (exit_status end))) }
{
    match host.read(name) {
        Ok(bytes) => Ok(Some(bytes)),
        Err(FileFault::Missing) => Ok(None),
        Err(FileFault::Failed) => Err(report_file(host, name, FileFault::Failed)),
        Err(FileFault::NoMemory) => Err(report_file(host, name, FileFault::NoMemory)),
    }
}

/// Returns the content of a file, if it was read.
pub(crate) fn lent(file: &Option<Vec<u8>>) -> Option<&[u8]>
    ensures { option_map (λ s. s.now) result ≡ option_map (λ s. s.items) file.now }
{
    match file {
        Some(bytes) => Some(bytes.as_slice()),
        None => None,
    }
}
