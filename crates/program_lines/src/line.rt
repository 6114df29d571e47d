//! The commands of the command line, with their options, from what clap finds in the arguments.
ghost use Rattle.std.specs.Prelude.{◌≡◌, ◌↔◌, IsTrue, [], IfOk, IfErr, OnOk, MatchOption, map, option_map};
ghost use Rattle.std.specs.Prelude.{string_bytes, codes};
ghost use Rattle.clap.specs.Words.{fault_of, found_of, rows_of, subcommand_rows_of};
ghost use Rattle.program_lines.specs.Apps.{site_app};
ghost use Rattle.program_lines.specs.Lines.{HasSites, IsLineOf, IsNamed, IsNoLine, HasInvalidSite, IsCommandOf};
ghost use Rattle.program_lines.specs.Faults.{IsFaultOf};
ghost use Rattle.program_lines.specs.inner.NoSuchValue.{IsNone};
ghost use Rattle.program_lines.specs.inner.ClapErrors.{IsWhyIncomplete};

use crate::app::command;
use crate::fault::{LineFault, line_fault_of};
use crate::options::{
    clients_option, connections_option, flag_in, idle_option, is_given_invalid_site, option_text,
    site_option, sites_option,
};
use clap::ArgMatches;
use stamped_store::SiteName;
use std::alloc::Global;

/// The options of `check`: the names of a schema's file and of a file of policies, and whether to explain what is
/// rejected.
#[derive(Clone, Copy)]
pub struct CheckOptions<'a> {
    pub schema: &'a str,
    pub policies: &'a str,
    pub explain: bool,
}

/// The options of `decide`: the names of the files with policies, with entities and with a request, and whether to
/// explain what is rejected. The name of a schema's file is optional.
#[derive(Clone, Copy)]
pub struct DecideOptions<'a> {
    pub schema: Option<&'a str>,
    pub policies: &'a str,
    pub entities: &'a str,
    pub request: &'a str,
    pub explain: bool,
}

/// The options of `load`: the name of a schema's file, a site's name, and whether to explain what is rejected.
/// The names of files with policies, with entities and with an initial state are optional.
#[derive(Clone, Copy)]
pub struct LoadOptions<'a> {
    pub schema: &'a str,
    pub site: SiteName,
    pub policies: Option<&'a str>,
    pub entities: Option<&'a str>,
    pub state: Option<&'a str>,
    pub explain: bool,
}

/// The options of `serve`: the name of a schema's file, a site's name, an address, and whether to explain what is
/// rejected. These are optional: the name of a file with an initial state, the number of connections in all, the most
/// of them at once (1 to 1,024), the seconds that each may be idle (up to 86,400; 0 for ever), and the name of the log.
#[derive(Clone, Copy)]
pub struct ServeOptions<'a> {
    pub schema: &'a str,
    pub site: SiteName,
    pub listen: &'a str,
    pub state: Option<&'a str>,
    pub connections: Option<u32>,
    pub clients: Option<u16>,
    pub idle: Option<u32>,
    pub log: Option<&'a str>,
    pub explain: bool,
}

/// The options of `pull`: the name of a schema's file, a site's name, an address, and the name of the file with the
/// state. The site's name makes no difference: a pull issues no stamps.
#[derive(Clone, Copy)]
pub struct PullOptions<'a> {
    pub schema: &'a str,
    pub site: SiteName,
    pub from: &'a str,
    pub state: &'a str,
}

/// The options of `exchange`: the name of a schema's file, and the addresses of two sites.
#[derive(Clone, Copy)]
pub struct ExchangeOptions<'a> {
    pub schema: &'a str,
    pub between: &'a str,
    pub and: &'a str,
}

/// The options of `merge`: the names of a schema's file and of two files, each of a state or a delta, and whether to
/// explain what is rejected.
#[derive(Clone, Copy)]
pub struct MergeOptions<'a> {
    pub schema: &'a str,
    pub first: &'a str,
    pub second: &'a str,
    pub explain: bool,
}

/// The options of `drill`: the name of a schema's file, the number of sites (1 to 64), and the name of the script.
#[derive(Clone, Copy)]
pub struct DrillOptions<'a> {
    pub schema: &'a str,
    pub sites: u16,
    pub script: &'a str,
}

/// The options of `explain`: a code, or the name of a file of policies, and perhaps the names of files with a schema,
/// with entities and with a request.
#[derive(Clone, Copy)]
pub struct ExplainOptions<'a> {
    pub what: &'a str,
    pub schema: Option<&'a str>,
    pub entities: Option<&'a str>,
    pub request: Option<&'a str>,
}

/// A command with its options.
#[derive(Clone, Copy)]
pub enum Line<'a> {
    /// Validates each policy of a file under a schema.
    Check(CheckOptions<'a>),
    /// Decides one request.
    Decide(DecideOptions<'a>),
    /// Puts the contents of files into a site and prints the site's state.
    Load(LoadOptions<'a>),
    /// Serves a site at an address.
    Serve(ServeOptions<'a>),
    /// Fetches from the site at an address the entries that a state lacks, and writes the new state.
    Pull(PullOptions<'a>),
    /// Brings two sites up to date with each other.
    Exchange(ExchangeOptions<'a>),
    /// Merges two messages, each a state or a delta.
    Merge(MergeOptions<'a>),
    /// Executes a script.
    Drill(DrillOptions<'a>),
    /// Explains a code, or what is rejected in files.
    Explain(ExplainOptions<'a>),
}

/// Returns the name of the command that clap found, if it found one, and the command's options.
fn found_command<'m, 'a>(matches: &'m ArgMatches<'a>) -> Option<(&'a str, &'m ArgMatches<'a>)>
    ensures { option_map (λ p. (p.0.now, rows_of (found_of p.1.now))) result ≡ subcommand_rows_of matches.now }
{
    matches.subcommand()
}

/// Returns `check`, if it has both files.
fn check_line<'a>(options: &ArgMatches<'a>) -> Option<Line<'a>>
    ensures { MatchOption result (IsNone (IsLineOf (codes "check") (rows_of (found_of options.now))))
        (IsLineOf (codes "check") (rows_of (found_of options.now))) }
{
    let Some(schema) = option_text(options, "schema") else {
        return None;
    };
    let Some(policies) = option_text(options, "policies") else {
        return None;
    };
    let explain = flag_in(options, "explain");
    Some(Line::Check(CheckOptions {
        schema,
        policies,
        explain,
    }))
}

/// Returns `decide`, if it has each required file.
fn decide_line<'a>(options: &ArgMatches<'a>) -> Option<Line<'a>>
    ensures { MatchOption result (IsNone (IsLineOf (codes "decide") (rows_of (found_of options.now))))
        (IsLineOf (codes "decide") (rows_of (found_of options.now))) }
{
    let schema = option_text(options, "schema");
    let Some(policies) = option_text(options, "policies") else {
        return None;
    };
    let Some(entities) = option_text(options, "entities") else {
        return None;
    };
    let Some(request) = option_text(options, "request") else {
        return None;
    };
    let explain = flag_in(options, "explain");
    Some(Line::Decide(DecideOptions {
        schema,
        policies,
        entities,
        request,
        explain,
    }))
}

/// Returns `load`, if it has each required option and a valid site name.
fn load_line<'a>(options: &ArgMatches<'a>) -> Option<Line<'a>>
    ensures { MatchOption result (IsNone (IsLineOf (codes "load") (rows_of (found_of options.now))))
        (IsLineOf (codes "load") (rows_of (found_of options.now))) }
{
    let Some(schema) = option_text(options, "schema") else {
        return None;
    };
    let Some(site) = site_option(options) else {
        return None;
    };
    let policies = option_text(options, "policies");
    let entities = option_text(options, "entities");
    let state = option_text(options, "state");
    let explain = flag_in(options, "explain");
    Some(Line::Load(LoadOptions {
        schema,
        site,
        policies,
        entities,
        state,
        explain,
    }))
}

/// Returns `serve`, if it has each required option, a valid site name, and numbers within their bounds.
fn serve_line<'a>(options: &ArgMatches<'a>) -> Option<Line<'a>>
    ensures { MatchOption result (IsNone (IsLineOf (codes "serve") (rows_of (found_of options.now))))
        (IsLineOf (codes "serve") (rows_of (found_of options.now))) }
{
    let Some(schema) = option_text(options, "schema") else {
        return None;
    };
    let Some(site) = site_option(options) else {
        return None;
    };
    let Some(listen) = option_text(options, "listen") else {
        return None;
    };
    let Some(connections) = connections_option(options) else {
        return None;
    };
    let Some(clients) = clients_option(options) else {
        return None;
    };
    let Some(idle) = idle_option(options) else {
        return None;
    };
    let state = option_text(options, "state");
    let log = option_text(options, "log");
    let explain = flag_in(options, "explain");
    Some(Line::Serve(ServeOptions {
        schema,
        site,
        listen,
        state,
        connections,
        clients,
        idle,
        log,
        explain,
    }))
}

/// Returns `pull`, if it has each option and a valid site name.
fn pull_line<'a>(options: &ArgMatches<'a>) -> Option<Line<'a>>
    ensures { MatchOption result (IsNone (IsLineOf (codes "pull") (rows_of (found_of options.now))))
        (IsLineOf (codes "pull") (rows_of (found_of options.now))) }
{
    let Some(schema) = option_text(options, "schema") else {
        return None;
    };
    let Some(site) = site_option(options) else {
        return None;
    };
    let Some(from) = option_text(options, "from") else {
        return None;
    };
    let Some(state) = option_text(options, "state") else {
        return None;
    };
    Some(Line::Pull(PullOptions {
        schema,
        site,
        from,
        state,
    }))
}

/// Returns `exchange`, if it has the schema and both addresses.
fn exchange_line<'a>(options: &ArgMatches<'a>) -> Option<Line<'a>>
    ensures { MatchOption result (IsNone (IsLineOf (codes "exchange") (rows_of (found_of options.now))))
        (IsLineOf (codes "exchange") (rows_of (found_of options.now))) }
{
    let Some(schema) = option_text(options, "schema") else {
        return None;
    };
    let Some(between) = option_text(options, "between") else {
        return None;
    };
    let Some(and) = option_text(options, "and") else {
        return None;
    };
    Some(Line::Exchange(ExchangeOptions {
        schema,
        between,
        and,
    }))
}

/// Returns `merge`, if it has each file.
fn merge_line<'a>(options: &ArgMatches<'a>) -> Option<Line<'a>>
    ensures { MatchOption result (IsNone (IsLineOf (codes "merge") (rows_of (found_of options.now))))
        (IsLineOf (codes "merge") (rows_of (found_of options.now))) }
{
    let Some(schema) = option_text(options, "schema") else {
        return None;
    };
    let Some(first) = option_text(options, "first") else {
        return None;
    };
    let Some(second) = option_text(options, "second") else {
        return None;
    };
    let explain = flag_in(options, "explain");
    Some(Line::Merge(MergeOptions {
        schema,
        first,
        second,
        explain,
    }))
}

/// Returns `drill`, if it has both files, and a number of sites within its bounds.
fn drill_line<'a>(options: &ArgMatches<'a>) -> Option<Line<'a>>
    ensures { MatchOption result (IsNone (IsLineOf (codes "drill") (rows_of (found_of options.now))))
        (IsLineOf (codes "drill") (rows_of (found_of options.now))) }
{
    let Some(schema) = option_text(options, "schema") else {
        return None;
    };
    let Some(sites) = sites_option(options) else {
        return None;
    };
    let Some(script) = option_text(options, "script") else {
        return None;
    };
    Some(Line::Drill(DrillOptions {
        schema,
        sites,
        script,
    }))
}

/// Returns `explain`, if it has its code or file.
fn explain_line<'a>(options: &ArgMatches<'a>) -> Option<Line<'a>>
    ensures { MatchOption result (IsNone (IsLineOf (codes "explain") (rows_of (found_of options.now))))
        (IsLineOf (codes "explain") (rows_of (found_of options.now))) }
{
    let Some(what) = option_text(options, "what") else {
        return None;
    };
    let schema = option_text(options, "schema");
    let entities = option_text(options, "entities");
    let request = option_text(options, "request");
    Some(Line::Explain(ExplainOptions {
        what,
        schema,
        entities,
        request,
    }))
}

/// Returns the command of this name, if it has all required options with valid values.
fn named_line<'a>(name: &str, options: &ArgMatches<'a>) -> Option<Line<'a>>
    ensures { MatchOption result (IsNone (IsLineOf name.now (rows_of (found_of options.now))))
        (IsLineOf name.now (rows_of (found_of options.now))) }
{
    if name == "check" {
        return check_line(options);
    }
    if name == "decide" {
        return decide_line(options);
    }
    if name == "load" {
        return load_line(options);
    }
    if name == "serve" {
        return serve_line(options);
    }
    if name == "pull" {
        return pull_line(options);
    }
    if name == "exchange" {
        return exchange_line(options);
    }
    if name == "merge" {
        return merge_line(options);
    }
    if name == "drill" {
        return drill_line(options);
    }
    if name == "explain" {
        return explain_line(options);
    }
    None
}

/// Returns the command that clap found, if it has all required options with valid values.
fn found_line<'a>(matches: &ArgMatches<'a>) -> Option<Line<'a>>
    ensures { MatchOption result (IsNoLine (subcommand_rows_of matches.now))
        (λ line. IsNamed line (subcommand_rows_of matches.now)) }
{
    match found_command(matches) {
        Some((name, options)) => named_line(name, options),
        None => None,
    }
}

/// Returns whether clap found a command with an invalid site name.
fn has_invalid_site(matches: &ArgMatches<'_>) -> bool
    ensures { IsTrue result ↔ HasInvalidSite (subcommand_rows_of matches.now) }
{
    match found_command(matches) {
        Some((_name, options)) => is_given_invalid_site(options),
        None => false,
    }
}

/// Returns why clap found no complete command: an invalid site name; else a missing command or option, or an invalid
/// number.
fn why_incomplete(matches: &ArgMatches<'_>) -> LineFault
    ensures { IsWhyIncomplete (subcommand_rows_of matches.now) result }
{
    if has_invalid_site(matches) {
        LineFault::Site
    } else {
        LineFault::Incomplete
    }
}

/// Returns the command of the arguments `words`, the first of which is the program's name.
///
/// The command has each of its required options. `--site` has a site name (1 to 32 bytes, each an ASCII letter, a
/// digit, `-`, `_` or `.`). `--sites` is from 1 to 64, `--connections` from 0 to 4,294,967,295, `--clients` from 1 to
/// 1,024, and `--idle` from 0 to 86,400.
///
/// # Errors
///
/// - [`LineFault::Help`]: help, or the version, is requested.
/// - [`LineFault::Words`]: clap rejects the arguments.
/// - [`LineFault::Site`]: the value of `--site` is not a site name, and clap accepts the arguments.
/// - [`LineFault::Incomplete`]: clap accepts the arguments, but they are not a command with its required options and
///   valid numbers.
/// - [`LineFault::NoMemory`]: an allocation failed, at any point.
pub fn line_of<'a>(alloc: Global, words: &'a [String]) -> Result<Line<'a>, LineFault>
    ensures ok { IfOk result (IsCommandOf (map string_bytes words.entry.now)) }
    ensures sites { IfOk result HasSites }
    ensures taken { OnOk result (fault_of site_app (map string_bytes words.entry.now) ≡ []) }
    ensures err { IfErr result (IsFaultOf (map string_bytes words.entry.now)) }
{
    let matches = match command(alloc)?.try_get_matches_from(words) {
        Ok(matches) => matches,
        Err(error) => return Err(line_fault_of(error)),
    };
    match found_line(&matches) {
        Some(line) => Ok(line),
        None => Err(why_incomplete(&matches)),
    }
}
