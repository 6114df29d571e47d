//! The values of options.
ghost use Rattle.std.specs.Prelude.{◌≡◌, ◌↔◌, IsTrue, Some, None, MatchOption, option_map, codes};
ghost use Rattle.clap.specs.Words.{first_of, found_of, rows_of};
ghost use Rattle.program_lines.specs.Lines.{IsNumberIn, IsGivenNumber, MayBeGivenNumber, IsGivenSite};
ghost use Rattle.program_lines.specs.Lines.{IsGivenInvalidSite};
ghost use Rattle.program_lines.specs.Lines.{IsFlag};
ghost use Rattle.program_lines.specs.inner.NoSuchValue.{IsNone};

use crate::app::{MOST_CLIENTS, MOST_CONNECTIONS, MOST_IDLE, MOST_SITES};
use clap::ArgMatches;
use stamped_store::{SiteName, is_site_name};

/// Returns the value of an option, or `None` if the option is absent.
pub(crate) fn option_text<'a>(options: &ArgMatches<'a>, name: &str) -> Option<&'a str>
    ensures { option_map (λ s. s.now) result ≡ first_of name.now (rows_of (found_of options.now)) }
{
    options.get_str(name)
}

/// Returns whether a flag was given.
pub(crate) fn flag_in(options: &ArgMatches<'_>, name: &str) -> bool
    ensures { IsFlag (rows_of (found_of options.now)) name.now result }
{
    let Some(text) = option_text(options, name) else {
        return false;
    };
    text == "true"
}

/// Returns the number that a text spells in decimal digits, perhaps after a plus, if it is within bounds.
fn number_in(text: &str, least: u64, most: u64) -> Option<u64>
    ensures { MatchOption result (IsNone (IsNumberIn least most text.now)) (IsNumberIn least most text.now) }
{
    match text.parse::<u64>() {
        Ok(number) if least <= number && number <= most => Some(number),
        _ => None,
    }
}

/// Returns the value of `--site`, if it is a site name.
pub(crate) fn site_option(options: &ArgMatches<'_>) -> Option<SiteName>
    ensures { MatchOption result (IsNone (IsGivenSite (rows_of (found_of options.now))))
        (IsGivenSite (rows_of (found_of options.now))) }
{
    let Some(text) = option_text(options, "site") else {
        return None;
    };
    SiteName::parse(text)
}

/// Returns whether the option `--site` has a value that is not a site name.
pub(crate) fn is_given_invalid_site(options: &ArgMatches<'_>) -> bool
    ensures { IsTrue result ↔ IsGivenInvalidSite (rows_of (found_of options.now)) }
{
    let Some(text) = option_text(options, "site") else {
        return false;
    };
    !is_site_name(text)
}

/// Returns the number of connections: `Some(Some(n))` for `n` from 0 to 4,294,967,295, `Some(None)` if the option is
/// absent, and `None` for another value.
pub(crate) fn connections_option(options: &ArgMatches<'_>) -> Option<Option<u32>>
    ensures { MatchOption result
        (IsNone (MayBeGivenNumber (rows_of (found_of options.now)) (codes "connections") 0 4294967295))
        (MayBeGivenNumber (rows_of (found_of options.now)) (codes "connections") 0 4294967295) }
{
    let Some(text) = option_text(options, "connections") else {
        return Some(None);
    };
    match number_in(text, 0, MOST_CONNECTIONS) {
        Some(number) => Some(Some(number as u32)),
        None => None,
    }
}

/// Returns the most connections at once: `Some(Some(n))` for `n` from 1 to 1,024, `Some(None)` if the option is absent,
/// and `None` for another value.
pub(crate) fn clients_option(options: &ArgMatches<'_>) -> Option<Option<u16>>
    ensures { MatchOption result
        (IsNone (MayBeGivenNumber (rows_of (found_of options.now)) (codes "clients") 1 1024))
        (MayBeGivenNumber (rows_of (found_of options.now)) (codes "clients") 1 1024) }
{
    let Some(text) = option_text(options, "clients") else {
        return Some(None);
    };
    match number_in(text, 1, MOST_CLIENTS) {
        Some(number) => Some(Some(number as u16)),
        None => None,
    }
}

/// Returns the seconds that a connection may be idle: `Some(Some(n))` for `n` from 0 to 86,400, `Some(None)` if the
/// option is absent, and `None` for another value.
pub(crate) fn idle_option(options: &ArgMatches<'_>) -> Option<Option<u32>>
    ensures { MatchOption result
        (IsNone (MayBeGivenNumber (rows_of (found_of options.now)) (codes "idle") 0 86400))
        (MayBeGivenNumber (rows_of (found_of options.now)) (codes "idle") 0 86400) }
{
    let Some(text) = option_text(options, "idle") else {
        return Some(None);
    };
    match number_in(text, 0, MOST_IDLE) {
        Some(number) => Some(Some(number as u32)),
        None => None,
    }
}

/// Returns the number of sites, or `None` if the value is absent or not a number from 1 to 64.
pub(crate) fn sites_option(options: &ArgMatches<'_>) -> Option<u16>
    ensures { MatchOption result
        (IsNone (IsGivenNumber (rows_of (found_of options.now)) (codes "sites") 1 64))
        (IsGivenNumber (rows_of (found_of options.now)) (codes "sites") 1 64) }
{
    let Some(text) = option_text(options, "sites") else {
        return None;
    };
    match number_in(text, 1, MOST_SITES) {
        Some(number) => Some(number as u16),
        None => None,
    }
}
