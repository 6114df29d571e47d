//! The command `drill`.
ghost use Rattle.std.specs.Prelude.{◌≤◌};
ghost use Rattle.std.specs.Process.{exit_status};
ghost use Rattle.program.specs.Events.{Runs};
ghost use Rattle.program.specs.Runs.{IsDrillRun};

use crate::host::Host;
use crate::reading::read_file;
use crate::report::{report_answer, report_refusal};
use program_drills::drill_text;
use program_lines::DrillOptions;
use std::alloc::Global;
use std::process::ExitCode;

/// Reads the schema and the script, in this order, and then executes the script at the given number of sites.
pub(crate) fn run_drill<H: Host>(
    alloc: Global,
    host: &mut H,
    options: &DrillOptions<'_>,
) -> ExitCode
    requires { (1 ≤ options.now.sites) × (options.now.sites ≤ 64) }
    ensures { Runs H.does host.old host.new (λ events. IsDrillRun options.now events (exit_status result)) }
{
    let schema = match read_file(host, options.schema) {
        Ok(bytes) => bytes,
        Err(end) => return end,
    };
    let script = match read_file(host, options.script) {
        Ok(bytes) => bytes,
        Err(end) => return end,
    };
    match drill_text(alloc, &schema, options.sites, &script) {
        Ok(lines) => report_answer(host, &lines),
        Err(refusal) => report_refusal(alloc, host, refusal),
    }
}
