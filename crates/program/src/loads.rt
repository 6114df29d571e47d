//! The command `load`.
ghost use Rattle.std.specs.Prelude.{◌≡◌, option_map};
ghost use Rattle.std.specs.Process.{exit_status};
ghost use Rattle.program.specs.Events.{Runs};
ghost use Rattle.explanations.specs.Files.{files_of};
ghost use Rattle.program.specs.Loading.{IsPutOrRefused, IsLoadRun, IsLoadedOrRefused, load_files};

use crate::explaining::source_of;
use crate::host::Host;
use crate::initial_site::initial_site;
use crate::reading::{lent, read_file, read_if_named};
use crate::rejecting::{policies_of, report_rejected, schema_given};
use crate::report::report_answer;
use explanations::{Given, NamedText};
use program_drills::Site;
use program_lines::LoadOptions;
use site_loading::loaded_state;
use std::alloc::Global;
use std::process::ExitCode;

/// Returns the files of a load, for an explanation.
fn load_given<'n, 't>(
    options: &LoadOptions<'n>,
    schema: &'t [u8],
    policies: Option<&'t [u8]>,
    entities: Option<&'t [u8]>,
) -> Given<'n, 't>
    ensures { files_of result ≡ load_files options.now schema.entry.now (option_map (λ p. p.now) policies.entry)
        (option_map (λ e. e.now) entities.entry) }
{
    Given {
        schema: Some(NamedText {
            name: options.schema,
            text: schema,
        }),
        policies: policies_of(source_of(options.policies, policies)),
        entities: source_of(options.entities, entities),
        request: None,
    }
}

/// Puts the policies and entities of files into an initial site, and reports the site's state or the first error.
fn put_contents<H: Host>(
    alloc: Global,
    host: &mut H,
    options: &LoadOptions<'_>,
    site: Site,
    schema: &[u8],
    policies: Option<&[u8]>,
    entities: Option<&[u8]>,
) -> ExitCode
    ensures { Runs H.does host.old host.new (λ events. IsPutOrRefused options.now site schema.now
        (option_map (λ p. p.now) policies.entry) (option_map (λ e. e.now) entities.entry) events
        (exit_status result)) }
{
    match loaded_state(alloc, site, policies, entities) {
        Ok(line) => report_answer(host, &line),
        Err(refusal) => {
            let given = load_given(options, schema, policies, entities);
            report_rejected(alloc, host, refusal, options.explain, &given, None)
        }
    }
}

/// Creates the initial site and puts the policies and entities of files into it; reports the site's state or the first
/// error.
fn load_contents<H: Host>(
    alloc: Global,
    host: &mut H,
    options: &LoadOptions<'_>,
    schema: &[u8],
    state: Option<&[u8]>,
    policies: Option<&[u8]>,
    entities: Option<&[u8]>,
) -> ExitCode
    ensures { Runs H.does host.old host.new (λ events. IsLoadedOrRefused options.now schema.now
        (option_map (λ s. s.now) state.entry) (option_map (λ p. p.now) policies.entry)
        (option_map (λ e. e.now) entities.entry) events (exit_status result)) }
{
    match initial_site(alloc, schema, options.site, state) {
        Ok(site) => put_contents(alloc, host, options, site, schema, policies, entities),
        Err(refusal) => {
            let given = schema_given(options.schema, schema);
            report_rejected(alloc, host, refusal, options.explain, &given, options.state)
        }
    }
}

/// Reads the schema, then the initial state, the policies and the entities, each if it is named. Then puts the policies
/// and the entities into the site that `options` names, and prints the site's state.
pub(crate) fn run_load<H: Host>(alloc: Global, host: &mut H, options: &LoadOptions<'_>) -> ExitCode
    ensures { Runs H.does host.old host.new (λ events. IsLoadRun options.now events (exit_status result)) }
{
    let schema = match read_file(host, options.schema) {
        Ok(bytes) => bytes,
        Err(end) => return end,
    };
    let state = match read_if_named(host, options.state) {
        Ok(found) => found,
        Err(end) => return end,
    };
    let policies = match read_if_named(host, options.policies) {
        Ok(found) => found,
        Err(end) => return end,
    };
    let entities = match read_if_named(host, options.entities) {
        Ok(found) => found,
        Err(end) => return end,
    };
    load_contents(
        alloc,
        host,
        options,
        &schema,
        lent(&state),
        lent(&policies),
        lent(&entities),
    )
}
