//! Pulls from another site the entries that a state lacks.
ghost use Rattle.std.specs.Prelude.{◌≡◌, ◌≢◌, ◌⊎◌, ℕ, List, Ok, Err, IfOk, IfErr, OnErr, IsTrue, MatchResult};
ghost use Rattle.std.specs.Prelude.{option_map};
ghost use Rattle.http_streams.specs.Parts.{is_host};
ghost use Rattle.sync_messages.specs.schema.Schemas.{StatedSchema};
ghost use Rattle.sync_messages.specs.schema.Views.{schema_view};
ghost use Rattle.stamped_store.specs.Store.{Store, abstract_store};
ghost use Rattle.schema_decisions.specs.answer_lines.declared.refusal.Refusal.{Refusal};
ghost use Rattle.schema_decisions.specs.answer_lines.Refusals.{no_memory};
ghost use Rattle.program_exchanges.specs.Messages.{IsMessageRefused, IsSendable};
ghost use Rattle.http_streams.specs.declared.fetch.FetchFault.TheVariants as FetchFault;
ghost use Rattle.program_exchanges.specs.declared.fault.NetworkFault.{NetworkFault};
ghost use Rattle.program_exchanges.specs.Requests.{Holds, IsReady, request_for, summary_size};
ghost use Rattle.program_exchanges.specs.Exchanges.{IsAnswered, IsUnanswered, IsRequestBegun, ReportsNoHost};
ghost use Rattle.program_exchanges.specs.Exchanges.{ReportsTooLarge};
ghost use Rattle.program_exchanges.specs.Pulls.{IsPulled, IsFirstError, IsStateRefused};

use crate::asking::{ExchangeCall, ask};
use crate::fault::PullFault;
use crate::joining::{Joined, join_message, state_of};
use http_streams::{Sink, Source};
use plain::NoMemory;
use schema_decisions::{Policy, Refusal, parse_schema};
use stamped_store::StampedStore;
use std::alloc::Global;
use sync_messages::{Entity, Schema, write_summary};

/// The result of a pull.
#[derive(Drop)]
pub struct Pulled {
    /// The new state, as a message.
    pub state: Vec<u8>,
    /// The number of updates applied, including those that lose to a greater entry.
    pub taken: usize,
}

/// Returns the store of `state`, or the empty store if there is no state.
fn store_in(
    alloc: Global,
    schema: &Schema,
    state: Option<&[u8]>,
) -> Result<StampedStore<Policy, Entity>, Refusal>
    ensures holds { IfOk result (λ m. Holds (schema_view schema.now) (option_map (λ b. b.now) state.entry)
        (abstract_store m)) }
    ensures sendable { IfOk result (λ m. IsSendable (schema_view schema.now) (abstract_store m)) }
    ensures refused { IfErr result (λ r. (r ≡ no_memory → ⊥)
        → IsStateRefused (schema_view schema.now) (option_map (λ b. b.now) state.entry) r) }
{
    match state {
        Some(bytes) => match join_message(alloc, schema, StampedStore::new(alloc), bytes) {
            Ok(joined) => {
                let Joined { store, taken: _ } = joined;
                Ok(store)
            }
            Err(refusal) => Err(refusal),
        },
        None => Ok(StampedStore::new(alloc)),
    }
}

/// Joins the received message into the store, and returns the new state.
fn take_reply(
    alloc: Global,
    schema: &Schema,
    store: StampedStore<Policy, Entity>,
    message: &[u8],
) -> Result<Pulled, Refusal>
    requires { IsSendable (schema_view schema.now) (abstract_store store) }
    ensures pulled { IfOk result
        (λ p. IsPulled (schema_view schema.now) (abstract_store store) message.now p.state.items p.taken) }
    ensures refused { IfErr result
        (λ r. (r ≡ no_memory → ⊥) → IsMessageRefused (schema_view schema.now) message.now r) }
{
    let Joined { store, taken } = join_message(alloc, schema, store, message)?;
    let state = state_of(alloc, schema, &store)?;
    Ok(Pulled { state, taken })
}

/// Returns the result of joining a reply, with its error as the error of a pull.
fn pull_result(pulled: Result<Pulled, Refusal>) -> Result<Pulled, PullFault>
    ensures { MatchResult pulled (λ p. result ≡ Ok p) (λ r. result ≡ Err (PullFault.Refused r)) }
{
    match pulled {
        Ok(pulled) => Ok(pulled),
        Err(refusal) => Err(PullFault::Refused(refusal)),
    }
}

/// Asks for the entries that a store of a schema lacks, and returns the body of the reply.
fn fetch_missing_entries<R: Source, W: Sink>(
    alloc: Global,
    schema: &Schema,
    store: &StampedStore<Policy, Entity>,
    host: &[u8],
    reader: &mut R,
    writer: &mut W,
) -> Result<Vec<u8>, PullFault>
    ensures answered { IfOk result (λ body. IsAnswered R.left R.reads W.holds
        (request_for host.now (schema_view schema.now) (abstract_store store.now)) reader.old reader.new writer.old
        writer.new 200 body.items) }
    ensures refused { (r : Refusal) → result ≡ Err (PullFault.Refused r) → r ≡ no_memory }
    ensures network { (f : NetworkFault) → result ≡ Err (PullFault.Network f)
        → IsUnanswered R.left R.reads R.failed R.fails W.holds W.failed W.fails
        (request_for host.now (schema_view schema.now) (abstract_store store.now)) reader.old reader.new writer.old
        writer.new f }
    ensures err { OnErr result (((reader.new ≡ reader.old) × (writer.new ≡ writer.old)) ⊎ IsRequestBegun R.left W.holds
        (request_for host.now (schema_view schema.now) (abstract_store store.now)) reader.old reader.new writer.old
        writer.new) }
    ensures host { IfOk result (λ _. IsTrue (is_host host.now)) }
    ensures no_host { (f : NetworkFault) → result ≡ Err (PullFault.Network f) → ReportsNoHost host.now f }
    ensures too_large { (f : NetworkFault) → result ≡ Err (PullFault.Network f)
        → ReportsTooLarge host.now (summary_size (schema_view schema.now) (abstract_store store.now)) f }
    ensures reads { result ≢ Err (PullFault.Network (NetworkFault.Fetch FetchFault.Read))
        → R.failed reader.new ≡ R.failed reader.old }
    ensures writes { result ≢ Err (PullFault.Network (NetworkFault.Fetch FetchFault.Write))
        → W.failed writer.new ≡ W.failed writer.old }
{
    match write_summary(alloc, schema, store) {
        Ok(summary) => ask(alloc, ExchangeCall::Delta, host, &summary, reader, writer),
        Err(_) => Err(PullFault::from(NoMemory)),
    }
}

/// Pulls under a parsed schema, into a store whose updates may occur in a message (`IsSendable`).
fn pull_under<R: Source, W: Sink>(
    alloc: Global,
    schema: &Schema,
    store: StampedStore<Policy, Entity>,
    host: &[u8],
    reader: &mut R,
    writer: &mut W,
) -> Result<Pulled, PullFault>
    requires { IsSendable (schema_view schema.now) (abstract_store store) }
    ensures pulled { IfOk result (λ p. (body : List ℕ) × IsAnswered R.left R.reads W.holds
        (request_for host.now (schema_view schema.now) (abstract_store store)) reader.old reader.new writer.old
        writer.new 200 body
        × IsPulled (schema_view schema.now) (abstract_store store) body p.state.items p.taken) }
    ensures refused { (r : Refusal) → result ≡ Err (PullFault.Refused r) → r ≢ no_memory
        → (body : List ℕ) × IsAnswered R.left R.reads W.holds
        (request_for host.now (schema_view schema.now) (abstract_store store)) reader.old reader.new writer.old
        writer.new 200 body
        × IsMessageRefused (schema_view schema.now) body r }
    ensures network { (f : NetworkFault) → result ≡ Err (PullFault.Network f)
        → IsUnanswered R.left R.reads R.failed R.fails W.holds W.failed W.fails
        (request_for host.now (schema_view schema.now) (abstract_store store)) reader.old reader.new writer.old
        writer.new f }
    ensures err { OnErr result (((reader.new ≡ reader.old) × (writer.new ≡ writer.old)) ⊎ IsRequestBegun R.left W.holds
        (request_for host.now (schema_view schema.now) (abstract_store store)) reader.old reader.new writer.old
        writer.new) }
    ensures host { IfOk result (λ _. IsTrue (is_host host.now)) }
    ensures no_host { (f : NetworkFault) → result ≡ Err (PullFault.Network f) → ReportsNoHost host.now f }
    ensures too_large { (f : NetworkFault) → result ≡ Err (PullFault.Network f)
        → ReportsTooLarge host.now (summary_size (schema_view schema.now) (abstract_store store)) f }
    ensures reads { result ≢ Err (PullFault.Network (NetworkFault.Fetch FetchFault.Read))
        → R.failed reader.new ≡ R.failed reader.old }
    ensures writes { result ≢ Err (PullFault.Network (NetworkFault.Fetch FetchFault.Write))
        → W.failed writer.new ≡ W.failed writer.old }
{
    match fetch_missing_entries(alloc, schema, &store, host, reader, writer) {
        Ok(body) => pull_result(take_reply(alloc, schema, store, &body)),
        Err(fault) => Err(fault),
    }
}

/// Asks a site over a reader and a writer for the entries that a state lacks, and joins them into the state.
///
/// `schema` is the text of the schema, `state` a state or a delta under it, absent for an empty store, and `host` the
/// value of the field `Host`. One request is written, `POST /v1/delta` with the summary of the state, and its reply is
/// read. The updates of the reply's body are joined; the result has the new state and the number of these updates. No
/// site is involved on this side, so no stamp is issued.
///
/// # Errors
///
/// In the order checked; after any of them there is no new state. The first four come before anything is sent.
///
/// - 20 to 25, without a place: the schema is rejected.
/// - 50 to 56, with the place and the code of the inner error: the state is rejected.
/// - 75: `host` is not a host.
/// - 77: the summary is longer than a site accepts.
/// - 70 to 74: the network failed, or the reply has a status other than 200.
/// - 50 to 56: the received message is rejected.
/// - 1, at any point: out of memory.
pub fn pull_over<R: Source, W: Sink>(
    alloc: Global,
    schema: &[u8],
    state: Option<&[u8]>,
    host: &[u8],
    reader: &mut R,
    writer: &mut W,
) -> Result<Pulled, PullFault>
    // The request was sent, the reply has status 200, and its body was joined.
    ensures pulled { IfOk result (λ p. (s : StatedSchema) × (m : Store) × (body : List ℕ)
        × IsReady schema.now (option_map (λ b. b.now) state.entry) s m
        × IsAnswered R.left R.reads W.holds (request_for host.now s m) reader.old reader.new writer.old writer.new
        200 body
        × IsPulled s m body p.state.items p.taken) }

    // The schema or the state is rejected, and nothing was sent; or the reply has status 200, and its body is rejected.
    ensures refused { (r : Refusal) → result ≡ Err (PullFault.Refused r) → r ≢ no_memory
        → (IsFirstError schema.now (option_map (λ b. b.now) state.entry) r × (reader.new ≡ reader.old)
        × (writer.new ≡ writer.old))
        ⊎ ((s : StatedSchema) × (m : Store) × (body : List ℕ)
        × IsReady schema.now (option_map (λ b. b.now) state.entry) s m
        × IsAnswered R.left R.reads W.holds (request_for host.now s m) reader.old reader.new writer.old writer.new
        200 body
        × IsMessageRefused s body r) }

    // The schema and the state are accepted, and there is no reply of status 200.
    ensures network { (f : NetworkFault) → result ≡ Err (PullFault.Network f) → (s : StatedSchema) × (m : Store)
        × IsReady schema.now (option_map (λ b. b.now) state.entry) s m
        × IsUnanswered R.left R.reads R.failed R.fails W.holds W.failed W.fails (request_for host.now s m)
        reader.old reader.new writer.old writer.new f }

    // After any error a prefix of the request was sent, possibly empty or whole.
    ensures err { OnErr result (((reader.new ≡ reader.old) × (writer.new ≡ writer.old))
        ⊎ ((s : StatedSchema) × (m : Store) × IsReady schema.now (option_map (λ b. b.now) state.entry) s m
        × IsRequestBegun R.left W.holds (request_for host.now s m) reader.old reader.new writer.old writer.new)) }

    // A `Network` error is `NoHost` if and only if `host` is not a host, and `TooLarge` if and only if `host` is a host
    // and the summary is longer than a site accepts.
    ensures host { IfOk result (λ _. IsTrue (is_host host.now)) }
    ensures no_host { (f : NetworkFault) → result ≡ Err (PullFault.Network f) → ReportsNoHost host.now f }
    ensures too_large { (f : NetworkFault) → result ≡ Err (PullFault.Network f) → (s : StatedSchema) × (m : Store)
        × IsReady schema.now (option_map (λ b. b.now) state.entry) s m
        × ReportsTooLarge host.now (summary_size s m) f }

    // Each failure of a device is reported.
    ensures reads { result ≢ Err (PullFault.Network (NetworkFault.Fetch FetchFault.Read))
        → R.failed reader.new ≡ R.failed reader.old }
    ensures writes { result ≢ Err (PullFault.Network (NetworkFault.Fetch FetchFault.Write))
        → W.failed writer.new ≡ W.failed writer.old }
{
    match parse_schema(alloc, schema) {
        Ok(schema) => match store_in(alloc, &schema, state) {
            Ok(store) => pull_under(alloc, &schema, store, host, reader, writer),
            Err(refusal) => Err(PullFault::Refused(refusal)),
        },
        Err(refusal) => Err(PullFault::Refused(refusal)),
    }
}
