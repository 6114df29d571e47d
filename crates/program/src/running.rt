//! A run, from the arguments of the command line to the status.
ghost use Rattle.std.specs.Prelude.{map, string_bytes};
ghost use Rattle.std.specs.Process.{exit_status};
ghost use Rattle.program_lines.specs.Lines.{HasSites};
ghost use Rattle.program.specs.Events.{Runs};
ghost use Rattle.program.specs.Runs.{IsLineRun, IsRun};

use crate::commands::{run_check, run_decide};
use crate::drills::run_drill;
use crate::exchanging::run_exchange;
use crate::explaining::run_explain;
use crate::host::Host;
use crate::loads::run_load;
use crate::report::report_words;
use crate::serving::run_serve;
use crate::states::{run_merge, run_pull};
use program_lines::{Line, line_of};
use std::alloc::Global;
use std::process::ExitCode;

/// Executes a command.
fn run_line<H: Host>(alloc: Global, host: &mut H, line: &Line<'_>) -> ExitCode
    requires { HasSites line.now }
    ensures { Runs H.does host.old host.new (λ events.
        IsLineRun H.Reader.Source H.Writer.Sink H.Log.Sink H.Sockets.Sockets line.now events (exit_status result)) }
{
    match line {
        Line::Check(options) => run_check(alloc, host, options),
        Line::Decide(options) => run_decide(alloc, host, options),
        Line::Load(options) => run_load(alloc, host, options),
        Line::Serve(options) => run_serve(alloc, host, options),
        Line::Pull(options) => run_pull(alloc, host, options),
        Line::Exchange(options) => run_exchange(alloc, host, options),
        Line::Merge(options) => run_merge(alloc, host, options),
        Line::Drill(options) => run_drill(alloc, host, options),
        Line::Explain(options) => run_explain(alloc, host, options),
    }
}

/// Executes the command of the arguments, the first of which is the program's name. A command checks policies, decides
/// a request, loads files into a site and prints its state, serves a site, pulls from one, exchanges between two,
/// merges two messages, executes a script, or explains a code or what is rejected in files. If the arguments are not a
/// command, writes help, the version, or the error of the arguments.
///
/// The status is 0 for an answer or help, 1 if something is rejected or out of memory, 2 for arguments that are not a
/// command, and 3 if a file can't be read or written, or the network or a stream fails.
pub fn run<H: Host>(alloc: Global, host: &mut H, words: &[String]) -> ExitCode
    ensures { Runs H.does host.old host.new (λ events.
        IsRun H.Reader.Source H.Writer.Sink H.Log.Sink H.Sockets.Sockets (map string_bytes words.now) events
        (exit_status result)) }
{
    match line_of(alloc, words) {
        Ok(line) => run_line(alloc, host, &line),
        Err(fault) => report_words(host, &fault),
    }
}
