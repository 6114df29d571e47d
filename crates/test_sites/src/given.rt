//! The schema and the sites that earlier cases have set up.
use crate::inputs::{all_lent, inputs_of};
use crate::line::{BAD_ROW, Line, NO_MEMORY};
use crate::replies::{push_caches, push_reply};
use crate::written::first_word;
use entities::{Schema, read_schema};
use http_service::{Input, Reply, Site, SiteName};
use plain::{NoMemory, Shared};
use std::alloc::Global;

/// A site that was started, with its name.
#[derive(Drop)]
struct Started {
    name: SiteName,
    site: Site,
}

/// The schema and the sites of the earlier cases.
#[derive(Drop)]
pub(crate) struct Given {
    schema: Option<Shared<Schema>>,
    // The newest comes first.
    sites: Vec<Started>,
}

/// Returns the schema that a string describes, if it describes one.
fn schema_in(alloc: Global, text: &str) -> Option<Shared<Schema>> {
    match read_schema(alloc, text.as_bytes()) {
        Ok(schema) => Shared::new(alloc, schema).ok(),
        Err(_) => None,
    }
}

/// Returns an empty site of this name.
pub(crate) fn new_site(
    alloc: Global,
    schema: &Shared<Schema>,
    name: SiteName,
) -> Result<Site, NoMemory> {
    Ok(Site::new(alloc, schema.share()?, name.as_str()))
}

/// Adds an empty site of this name, which hides an older one of the same name.
fn add_site(
    alloc: Global,
    schema: &Shared<Schema>,
    name: SiteName,
    sites: &mut Vec<Started>,
) -> Result<(), NoMemory> {
    let site = new_site(alloc, schema, name)?;
    sites.insert(0, Started { name, site })?;
    Ok(())
}

/// Returns the index of the newest site of a name, or the number of sites if none has this name.
fn index_of(sites: &[Started], name: &str) -> usize {
    for at in 0..sites.len() {
        if sites[at].name.as_str() == name {
            return at;
        }
    }
    sites.len()
}

/// Gives inputs, as one run, to the newest site of this name, and returns the replies; `None` without such a site.
fn run_at(
    sites: &mut Vec<Started>,
    name: &str,
    inputs: &[Input<'_>],
) -> Option<Result<Vec<Reply>, NoMemory>> {
    let index = index_of(sites, name);
    match sites.get_mut(index) {
        Some(started) => Some(started.site.run(inputs)),
        None => None,
    }
}

/// Returns the newest site of a name, if there is one.
fn site_of<'a>(sites: &'a [Started], name: &str) -> Option<&'a Site> {
    match sites.get(index_of(sites, name)) {
        Some(started) => Some(&started.site),
        None => None,
    }
}

/// Appends the reply to each input.
fn push_all(alloc: Global, line: &mut Line, replies: &[Reply]) {
    for reply in replies {
        line.begin_part();
        push_reply(alloc, line, reply);
    }
}

impl Given {
    /// Creates the start: no schema, and no sites.
    pub(crate) fn new(alloc: Global) -> Given {
        Given {
            schema: None,
            sites: Vec::new(alloc),
        }
    }

    /// Returns the schema, if there is one.
    pub(crate) fn schema(&self) -> Option<&Shared<Schema>> {
        self.schema.as_ref()
    }

    /// Sets the schema of the following cases: the one that `text` describes, or none if `text` describes none.
    pub(crate) fn set_schema(&mut self, alloc: Global, text: &str, line: &mut Line) {
        self.schema = schema_in(alloc, text);
        line.push(b"given");
    }

    /// Starts an empty site, and appends the label of its schema.
    pub(crate) fn start(&mut self, alloc: Global, name: &str, line: &mut Line) {
        match (&self.schema, SiteName::parse(name)) {
            (Some(schema), Some(name)) => match add_site(alloc, schema, name, &mut self.sites) {
                Ok(()) => line.push(schema.label().as_bytes()),
                Err(_) => line.push(NO_MEMORY),
            },
            _ => line.push(BAD_ROW),
        }
    }

    /// Appends which caches of a site are present, or how many policies its last answer evaluated.
    pub(crate) fn push_measure(&self, word: &str, name: &str, line: &mut Line) {
        match (word, site_of(&self.sites, name)) {
            ("tried", Some(site)) => line.push_number(site.evaluated() as u64),
            (_, Some(site)) => push_caches(line, site.caches_present()),
            _ => line.push(BAD_ROW),
        }
    }

    /// Gives a site inputs as one run, and appends its replies.
    pub(crate) fn push_run(
        &mut self,
        alloc: Global,
        name: &str,
        inputs: &[Input<'_>],
        line: &mut Line,
    ) {
        match run_at(&mut self.sites, name, inputs) {
            Some(Ok(replies)) => push_all(alloc, line, &replies),
            Some(Err(_)) => line.push(NO_MEMORY),
            None => line.push(BAD_ROW),
        }
    }

    /// Gives a site the inputs that a string describes, and appends its replies.
    pub(crate) fn push_replies(&mut self, alloc: Global, name: &str, text: &str, line: &mut Line) {
        match inputs_of(alloc, text) {
            Ok(Some(inputs)) => match all_lent(alloc, &inputs) {
                Ok(lent) => self.push_run(alloc, name, &lent, line),
                Err(_) => line.push(NO_MEMORY),
            },
            Ok(None) => line.push(BAD_ROW),
            Err(_) => line.push(NO_MEMORY),
        }
    }

    /// Gives a site inputs as one run, and appends its replies, with the messages of errors. The first word of `text`
    /// names the site, and the rest describes the inputs.
    pub(crate) fn push_messages(&mut self, alloc: Global, text: &str, line: &mut Line) {
        let (name, inputs) = first_word(text);
        line.print_messages();
        self.push_replies(alloc, name, inputs, line);
    }
}
