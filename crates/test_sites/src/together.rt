//! Cases of several connections at once, over sockets in memory.
use crate::given::new_site;
use crate::line::{BAD_ROW, BETWEEN, Line, NO_MEMORY};
use crate::replies::push_state;
use crate::written::{first_word, push_escaped, push_unescaped};
use entities::Schema;
use http_service::{
    Kept, Limits, LoopFault, Plan, ServingMemory, Site, SiteName, serve_connections,
};
use plain::{NoMemory, Shared};
use std::alloc::Global;
use test_connection_loop::Played;

/// The number of connections of a case.
const CLIENTS: usize = 3;

/// Appends the script by which the bytes of a piece come at its connection, after a wait.
fn push_piece(alloc: Global, script: &mut Line, piece: &str) {
    let (slot, text) = first_word(piece);
    let mut bytes = Line::new(alloc);
    push_unescaped(&mut bytes, text);
    let Ok(bytes) = bytes.ended() else {
        script.fail();
        return;
    };
    for byte in bytes.as_slice() {
        script.push(b"<");
        script.push(slot.as_bytes());
        script.push(&[*byte]);
    }
    script.push(b"|..");
}

/// Returns the script of a case: its clients come, then one piece after another, and then all clients end.
fn script_of(alloc: Global, text: &str) -> Result<Vec<u8>, NoMemory> {
    let mut script = Line::new(alloc);
    script.push(b"+..+..+..|..");
    for piece in text.split(BETWEEN) {
        push_piece(alloc, &mut script, piece);
    }
    script.push(b"e0.e1.e2.|..");
    script.ended()
}

/// Appends the word for an error, or `-` without one.
fn push_fault(line: &mut Line, fault: Option<LoopFault>) {
    match fault {
        None => line.push(b"-, "),
        Some(LoopFault::Network) => line.push(b"network, "),
        Some(LoopFault::Commit) => line.push(b"commit, "),
    }
}

/// Serves an empty site over connections and appends the outcome.
fn push_served(alloc: Global, site: &mut Site, script: &[u8], line: &mut Line) {
    let (Ok(mut sockets), Ok(memory)) = (
        Played::new(alloc, CLIENTS, script),
        ServingMemory::new(alloc, CLIENTS),
    ) else {
        line.push(NO_MEMORY);
        return;
    };
    let limits = Limits {
        connections: Some(CLIENTS as u64),
        idle: None,
    };
    let mut log = Some(Kept::new(alloc, Plan::new(&[], None)));
    let fault = serve_connections(alloc, site, &mut log, &mut sockets, memory, &limits).err();
    push_fault(line, fault);
    push_state(line, site);
    line.push(BETWEEN.as_bytes());
    push_escaped(line, sockets.notes());
    line.push(BETWEEN.as_bytes());
    if let Some(log) = &log {
        push_escaped(line, log.bytes());
    }
}

/// Appends the outcome of a case.
pub(crate) fn push_together(
    alloc: Global,
    schema: Option<&Shared<Schema>>,
    text: &str,
    line: &mut Line,
) {
    let Some(schema) = schema else {
        line.push(BAD_ROW);
        return;
    };
    let Ok(script) = script_of(alloc, text) else {
        line.push(NO_MEMORY);
        return;
    };
    match new_site(alloc, schema, SiteName::from_number(1)) {
        Ok(mut site) => push_served(alloc, &mut site, &script, line),
        Err(_) => line.push(NO_MEMORY),
    }
}
