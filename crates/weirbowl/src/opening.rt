//! Opening an embedded site.
ghost use Rattle.std.specs.Prelude.{◌≡◌, [], IfOk, IfErr, MatchOption};
ghost use Rattle.http_replies.specs.site.SiteViews.{schema_of, store_in};
ghost use Rattle.http_replies.specs.stamped_store.SiteNames.{IsSiteName};
ghost use Rattle.http_replies.specs.stamped_store.Store.{store_of};
ghost use Rattle.schema_decisions.specs.Checks.{IsSchemaRefused};
ghost use Rattle.schema_decisions.specs.answer_lines.Refusals.{no_memory};
ghost use Rattle.weirbowl.specs.Opening.{IsOpened, IsOpenError, code_of};

use crate::embedded::EmbeddedSite;
use http_replies::{LINE_ROOM, Scratch, Site, is_site_name, site_names_are_recognized};
use plain::{NoMemory, Shared};
use schema_decisions::{Refusal, Schema, parse_schema};
use std::alloc::Global;

/// The reason why no site is opened.
#[derive(Clone, Copy)]
pub enum OpenError {
    /// The name is not a site name.
    SiteName,
    /// The bytes are not a schema, or an allocation failed.
    Schema(Refusal),
}

impl OpenError {
    /// Returns the error's code: 2 for a name, else that of the refusal (1 for out of memory, 20 to 25 for a schema).
    pub fn code(self) -> u8
        ensures { result ≡ code_of self }
    {
        match self {
            OpenError::SiteName => 2,
            OpenError::Schema(refusal) => refusal.code,
        }
    }
}

/// Returns `site` as an embedded site. Its `body` is empty, with capacity for the body of a reply to a change.
fn embedded(alloc: Global, site: Site) -> Result<EmbeddedSite, NoMemory>
    ensures site { IfOk result (λ e. e.site ≡ site) }
    ensures fresh { IfOk result (λ e. e.body.items ≡ []) }
{
    let body = match Vec::with_capacity(alloc, LINE_ROOM) {
        Ok(body) => body,
        Err(error) => {
            drop(site);
            return Err(error);
        }
    };
    Ok(EmbeddedSite {
        alloc,
        scratch: Scratch::new(alloc),
        site,
        body,
    })
}

/// Returns an empty site of this name, under a schema.
fn open_under(alloc: Global, schema: Schema, name: &str) -> Result<EmbeddedSite, NoMemory>
    requires { IsSiteName name.now }
    ensures schema { IfOk result (λ e. e.site.schema ≡ schema) }
    ensures name { IfOk result (λ e. e.site.name ≡ name.now) }
    ensures empty { IfOk result (λ e. store_in e.site ≡ store_of []) }
    ensures fresh { IfOk result (λ e. e.body.items ≡ []) }
{
    let schema = Shared::new(alloc, schema)?;
    embedded(alloc, Site::new(alloc, schema, name))
}

/// Returns an empty site with this site name, under the schema that bytes describe; or the error of the schema, or of a
/// failed allocation.
fn open_named(alloc: Global, schema: &[u8], name: &str) -> Result<EmbeddedSite, Refusal>
    requires { IsSiteName name.now }
    ensures opened { IfOk result (IsOpened schema.now name.now) }
    ensures failed { IfErr result (λ r. (r ≡ no_memory → ⊥) → IsSchemaRefused schema.now r) }
{
    let schema = parse_schema(alloc, schema)?;
    Ok(open_under(alloc, schema, name)?)
}

/// Opens a site like [`open_named`], with the error as an [`OpenError`].
fn open_as(alloc: Global, schema: &[u8], name: &str) -> Result<EmbeddedSite, OpenError>
    requires { IsSiteName name.now }
    ensures opened { IfOk result (IsOpened schema.now name.now) }
    ensures failed { IfErr result (IsOpenError schema.now name.now) }
{
    match open_named(alloc, schema, name) {
        Ok(site) => Ok(site),
        Err(refusal) => Err(OpenError::Schema(refusal)),
    }
}

/// Returns `text` if it is a site name.
fn valid_name(text: &str) -> Option<&str>
    ensures { MatchOption result (IsSiteName text.now → ⊥) (λ t. IsSiteName t.now × (t.now ≡ text.now)) }
{
    if is_site_name(text) { Some(text) } else { None }
}

/// Returns bytes as a site name, if they are one.
fn site_name_of(bytes: &[u8]) -> Option<&str>
    ensures { MatchOption result (IsSiteName bytes.now → ⊥) (λ t. IsSiteName t.now × (t.now ≡ bytes.now)) }
{
    site_names_are_recognized();
    match str::from_utf8(bytes) {
        Ok(text) => valid_name(text),
        Err(_) => None,
    }
}

impl EmbeddedSite {
    /// Opens a site with nothing stored, under the schema that bytes describe.
    ///
    /// # Errors
    ///
    /// - [`OpenError::SiteName`] (2): the name is not 1 to 32 ASCII letters, digits, `-`, `_` and `.`.
    /// - [`OpenError::Schema`] (20 to 25): the bytes are not a schema; or out of memory (1).
    pub fn open(alloc: Global, schema: &[u8], name: &[u8]) -> Result<EmbeddedSite, OpenError>
        ensures opened { IfOk result (IsOpened schema.now name.now) }
        ensures failed { IfErr result (IsOpenError schema.now name.now) }
    {
        match site_name_of(name) {
            Some(named) => open_as(alloc, schema, named),
            None => Err(OpenError::SiteName),
        }
    }
}
