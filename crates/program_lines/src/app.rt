//! The commands and their options, as values of clap.
ghost use Rattle.std.specs.Prelude.{◌≡◌, false, IfOk, codes};
ghost use Rattle.clap.specs.Words.{App, Rule, rule_of, new_app, with_rule, with_subcommand};
ghost use Rattle.program_lines.specs.Apps.{value_option, value_word, number_option, demanded, site_option, site_app};
ghost use Rattle.program_lines.specs.Apps.{explain_flag};
ghost use Rattle.program_lines.specs.Apps.{check_app, decide_app, load_app, serve_app, pull_app};
ghost use Rattle.program_lines.specs.Apps.{exchange_app, merge_app, drill_app, explain_app};
ghost use Rattle.program_lines.specs.Apps.{asks_for_command, with_version};
ghost use Rattle.program_lines.specs.inner.Known.{IsApp};

use clap::builder::ValueParser;
use clap::{Arg, ArgAction, Command};
use plain::{NoMemory, both, pair_with};
use std::alloc::Global;

/// The greatest value of `--connections`.
pub(crate) const MOST_CONNECTIONS: u64 = 4_294_967_295;

/// The greatest value of `--clients`.
pub(crate) const MOST_CLIENTS: u64 = 1_024;

/// The greatest value of `--idle`, in seconds: a day.
pub(crate) const MOST_IDLE: u64 = 86_400;

/// The greatest value of `--sites`.
pub(crate) const MOST_SITES: u64 = 64;

/// Returns a command with no options yet, whose help ends with an example.
fn new_command<'a>(
    alloc: Global,
    name: &'a str,
    about: &'a str,
    example: &'a str,
) -> Result<Command<'a>, NoMemory>
    ensures { IfOk result (IsApp (new_app name.entry.now)) }
{
    Ok(Command::new(alloc, name).about(about).after_help(example))
}

/// Returns the command with one more option.
fn with<'a>(command: Result<Command<'a>, NoMemory>, arg: Arg<'a>) -> Result<Command<'a>, NoMemory>
    requires { arg.global ≡ false }
    ensures { (app : App) → (rule : Rule) → (rule_of arg.entry ≡ rule) → IfOk command.entry (IsApp app)
        → IfOk result (IsApp (with_rule app rule)) }
{
    let (arg, command) = pair_with(arg, command)?;
    command.arg(arg)
}

/// Returns the command with one more subcommand.
fn with_command<'a>(
    command: Result<Command<'a>, NoMemory>,
    below: Result<Command<'a>, NoMemory>,
) -> Result<Command<'a>, NoMemory>
    ensures { (app : App) → (under : App) → IfOk command.entry (IsApp app) → IfOk below.entry (IsApp under)
        → IfOk result (IsApp (with_subcommand app under.top)) }
{
    let (command, below) = both(command, below)?;
    command.subcommand(below)
}

/// Returns the option `--name` with a value, which the help shows as `value`.
fn value_option<'a>(alloc: Global, name: &'a str, value: &'a str, help: &'a str) -> Arg<'a>
    ensures rule { rule_of result ≡ value_option name.entry.now }
    ensures local { result.global ≡ false }
{
    Arg::new(alloc, name)
        .long(name)
        .value_name(value)
        .help(help)
        .action(ArgAction::Set)
}

/// Returns the option `--name` with a number from `least` to `most`, which the help shows as `value`.
fn number_option<'a>(
    alloc: Global,
    name: &'a str,
    value: &'a str,
    least: u64,
    most: u64,
    help: &'a str,
) -> Arg<'a>
    ensures rule { rule_of result ≡ number_option name.entry.now least most }
    ensures local { result.global ≡ false }
{
    value_option(alloc, name, value, help).value_parser(ValueParser::unsigned(least, most))
}

/// Returns the command with one more required option that has a value.
fn with_needed<'a>(
    alloc: Global,
    command: Result<Command<'a>, NoMemory>,
    name: &'a str,
    value: &'a str,
    help: &'a str,
) -> Result<Command<'a>, NoMemory>
    ensures { (app : App) → IfOk command.entry (IsApp app)
        → IfOk result (IsApp (with_rule app (demanded (value_option name.entry.now)))) }
{
    let option = value_option(alloc, name, value, help).required(true);
    with(command, option)
}

/// Returns the command with the required option `--site`.
fn with_site<'a>(
    alloc: Global,
    command: Result<Command<'a>, NoMemory>,
    help: &'a str,
) -> Result<Command<'a>, NoMemory>
    ensures { (app : App) → IfOk command.entry (IsApp app) → IfOk result (IsApp (with_rule app site_option)) }
{
    with_needed(alloc, command, "site", "NAME", help)
}

/// Returns the command with the required option `--schema`.
fn with_schema<'a>(
    alloc: Global,
    command: Result<Command<'a>, NoMemory>,
) -> Result<Command<'a>, NoMemory>
    ensures { (app : App) → IfOk command.entry (IsApp app)
        → IfOk result (IsApp (with_rule app (demanded (value_option (codes "schema"))))) }
{
    with_needed(alloc, command, "schema", "FILE", "The schema, as JSON")
}

/// Returns the command with one more required argument, given by its position.
fn with_word<'a>(
    alloc: Global,
    command: Result<Command<'a>, NoMemory>,
    name: &'a str,
    value: &'a str,
    help: &'a str,
) -> Result<Command<'a>, NoMemory>
    ensures { (app : App) → IfOk command.entry (IsApp app)
        → IfOk result (IsApp (with_rule app (demanded (value_word name.entry.now)))) }
{
    let word = Arg::new(alloc, name)
        .value_name(value)
        .help(help)
        .action(ArgAction::Set)
        .required(true);
    with(command, word)
}

/// Returns the command with the flag that asks for explanations.
fn with_explain<'a>(
    alloc: Global,
    command: Result<Command<'a>, NoMemory>,
) -> Result<Command<'a>, NoMemory>
    ensures { (app : App) → IfOk command.entry (IsApp app) → IfOk result (IsApp (with_rule app explain_flag)) }
{
    let flag = Arg::new(alloc, "explain")
        .long("explain")
        .help("Also explains, on standard error, what is rejected")
        .action(ArgAction::SetTrue);
    with(command, flag)
}

/// Returns the command `check`.
fn check_command<'a>(alloc: Global) -> Result<Command<'a>, NoMemory>
    ensures { IfOk result (IsApp check_app) }
{
    let about = "Reports whether each policy of a file is accepted under a schema";
    let example = "Example:\n  cedar_site check --schema schema.json policies.cedar";
    let command = new_command(alloc, "check", about, example);
    let command = with_schema(alloc, command);
    let policies = "The policies, as text";
    let command = with_word(alloc, command, "policies", "POLICIES", policies);
    with_explain(alloc, command)
}

/// Returns the command `decide`.
fn decide_command<'a>(alloc: Global) -> Result<Command<'a>, NoMemory>
    ensures { IfOk result (IsApp decide_app) }
{
    let about = "Decides one request over a file of policies and a file of entities";
    let request = "The request, a JSON object";
    let entities = "The entities, a JSON array";
    let schema = value_option(alloc, "schema", "FILE", "The schema, as JSON");
    let example =
        "Example:\n  cedar_site decide --schema schema.json --policies policies.cedar \\\n      \
         --entities entities.json --request ben_reads.json";
    let command = new_command(alloc, "decide", about, example);
    let command = with(command, schema);
    let command = with_needed(alloc, command, "policies", "FILE", "The policies, as text");
    let command = with_needed(alloc, command, "entities", "FILE", entities);
    let command = with_needed(alloc, command, "request", "FILE", request);
    with_explain(alloc, command)
}

/// Returns the command `load`.
fn load_command<'a>(alloc: Global) -> Result<Command<'a>, NoMemory>
    ensures { IfOk result (IsApp load_app) }
{
    let about = "Puts files of policies and entities into a site, and prints its state";
    let example = "Example:\n  cedar_site load --schema schema.json --site east \\\n      \
         --policies policies.cedar --entities entities.json > east.json";
    let name = "The site's name, for the stamps: 1 to 32 ASCII letters, digits, '-', '_' or '.'";
    let policies = "The policies, as text, each put under its name";
    let entities = "The entities, a JSON array, put in their order";
    let begin = "The initial state or delta; the file is never written";
    let command = new_command(alloc, "load", about, example);
    let command = with_schema(alloc, command);
    let command = with_site(alloc, command, name);
    let policies = value_option(alloc, "policies", "FILE", policies);
    let command = with(command, policies);
    let entities = value_option(alloc, "entities", "FILE", entities);
    let command = with(command, entities);
    let state = value_option(alloc, "state", "FILE", begin);
    let command = with(command, state);
    with_explain(alloc, command)
}

/// Returns the command `serve`.
fn serve_command<'a>(alloc: Global) -> Result<Command<'a>, NoMemory>
    ensures { IfOk result (IsApp serve_app) }
{
    let about = "Serves a site over HTTP, many connections at once";
    let address = "The address to listen at, such as 127.0.0.1:7000";
    let begin = "The initial state or delta; the file is never written";
    let most = "The number of connections to serve before the run ends";
    let many = "The most connections at once, 1 to 1024; others wait [default: 64]";
    let limit =
        "The time without a byte after which a connection is closed, 0 (never) to 86400 [default: 60]";
    let lines = "The log: a line of JSON for each reply, before it is sent; '-' is standard output";
    let name =
        "The site's name, which no other site has or had: 1 to 32 ASCII letters, digits, '-', '_' or '.'";
    let example =
        "Example:\n  cedar_site serve --schema schema.json --site east --state east.json \\\n      \
         --listen 127.0.0.1:7000";
    let command = new_command(alloc, "serve", about, example);
    let command = with_schema(alloc, command);
    let command = with_site(alloc, command, name);
    let command = with_needed(alloc, command, "listen", "ADDRESS", address);
    let command = with(command, value_option(alloc, "state", "FILE", begin));
    let connections = number_option(alloc, "connections", "NUMBER", 0, MOST_CONNECTIONS, most);
    let command = with(command, connections);
    let clients = number_option(alloc, "clients", "NUMBER", 1, MOST_CLIENTS, many);
    let command = with(command, clients);
    let idle = number_option(alloc, "idle", "SECONDS", 0, MOST_IDLE, limit);
    let command = with(command, idle);
    let log = value_option(alloc, "log", "FILE", lines);
    let command = with(command, log);
    with_explain(alloc, command)
}

/// Returns the command `pull`.
fn pull_command<'a>(alloc: Global) -> Result<Command<'a>, NoMemory>
    ensures { IfOk result (IsApp pull_app) }
{
    let about = "Fetches from another site the entries that a state file lacks";
    let file = "The file of the state, read and then written; a missing file is an empty state";
    let name = "A site's name; any name will do, since a pull issues no stamps";
    let example =
        "Example:\n  cedar_site pull --schema schema.json --site west --from 127.0.0.1:7000 --state west.json";
    let command = new_command(alloc, "pull", about, example);
    let command = with_schema(alloc, command);
    let command = with_site(alloc, command, name);
    let from = "The address of the other site";
    let command = with_needed(alloc, command, "from", "ADDRESS", from);
    with_needed(alloc, command, "state", "FILE", file)
}

/// Returns the command `exchange`.
fn exchange_command<'a>(alloc: Global) -> Result<Command<'a>, NoMemory>
    ensures { IfOk result (IsApp exchange_app) }
{
    let about = "Brings two running sites up to date with each other";
    let example =
        "Example:\n  cedar_site exchange --schema schema.json --between 127.0.0.1:7000 --and 127.0.0.1:7001";
    let command = new_command(alloc, "exchange", about, example);
    let command = with_schema(alloc, command);
    let first = "The address of the site that is brought up to date first";
    let command = with_needed(alloc, command, "between", "ADDRESS", first);
    with_needed(
        alloc,
        command,
        "and",
        "ADDRESS",
        "The address of the other site",
    )
}

/// Returns the command `merge`.
fn merge_command<'a>(alloc: Global) -> Result<Command<'a>, NoMemory>
    ensures { IfOk result (IsApp merge_app) }
{
    let about = "Prints the join of two states";
    let example = "Example:\n  cedar_site merge --schema schema.json east.json west.json";
    let command = new_command(alloc, "merge", about, example);
    let command = with_schema(alloc, command);
    let command = with_word(alloc, command, "first", "FIRST", "A state or a delta");
    let command = with_word(alloc, command, "second", "SECOND", "Another state or delta");
    with_explain(alloc, command)
}

/// Returns the command `drill`.
fn drill_command<'a>(alloc: Global) -> Result<Command<'a>, NoMemory>
    ensures { IfOk result (IsApp drill_app) }
{
    let about =
        "Executes a script of events at the sites of one process, and prints the result of each";
    let count = "The number of sites, 1 to 64; the script names them by number, from 1";
    let script = "The script: one event on each line, a JSON object";
    let example = "Example:\n  cedar_site drill --schema schema.json --sites 2 lost_and_late.jsonl";
    let command = new_command(alloc, "drill", about, example);
    let command = with_schema(alloc, command);
    let sites = number_option(alloc, "sites", "NUMBER", 1, MOST_SITES, count).required(true);
    let command = with(command, sites);
    with_word(alloc, command, "script", "SCRIPT", script)
}

/// Returns the command `explain`.
fn explain_command<'a>(alloc: Global) -> Result<Command<'a>, NoMemory>
    ensures { IfOk result (IsApp explain_app) }
{
    let about =
        "Explains a code, or what is rejected in files: each policy, the first entity, the request";
    let what = "A code, such as 44, or a file of policies";
    let entities = value_option(alloc, "entities", "FILE", "The entities, a JSON array");
    let request = value_option(alloc, "request", "FILE", "The request, a JSON object");
    let schema = value_option(alloc, "schema", "FILE", "The schema, as JSON");
    let example = "Examples:\n  cedar_site explain 44\n  \
         cedar_site explain --schema schema.json policies.cedar";
    let command = new_command(alloc, "explain", about, example);
    let command = with(command, schema);
    let command = with(command, entities);
    let command = with(command, request);
    with_word(alloc, command, "what", "WHAT", what)
}

/// The text that `--version` prints after the program's name: the version of the Cedar language.
const VERSION: &str = "4.0";

/// Returns the program's command without subcommands yet. It requires a subcommand, and has the option `--version`.
fn top_command<'a>(alloc: Global) -> Result<Command<'a>, NoMemory>
    ensures { IfOk result (IsApp (with_version (asks_for_command (new_app (codes "cedar_site"))))) }
{
    let about = "Checks policies, decides requests, and runs sites that exchange their stores";
    let command = Command::new(alloc, "cedar_site")
        .about(about)
        .version(VERSION);
    Ok(command.subcommand_required(true))
}

/// Returns the program's command with all subcommands.
pub(crate) fn command<'a>(alloc: Global) -> Result<Command<'a>, NoMemory>
    ensures { IfOk result (IsApp site_app) }
{
    let command = top_command(alloc);
    let command = with_command(command, check_command(alloc));
    let command = with_command(command, decide_command(alloc));
    let command = with_command(command, load_command(alloc));
    let command = with_command(command, serve_command(alloc));
    let command = with_command(command, pull_command(alloc));
    let command = with_command(command, exchange_command(alloc));
    let command = with_command(command, merge_command(alloc));
    let command = with_command(command, drill_command(alloc));
    with_command(command, explain_command(alloc))
}
