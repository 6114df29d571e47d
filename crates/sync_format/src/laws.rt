//! Theorems about states and deltas as messages. The functions are no-ops.
ghost use Rattle.std.specs.Prelude.{◌≡◌, ◌⊎◌, true, Ok, Some, List, ℕ, codes};
ghost use Rattle.std.specs.Str.{IsUtf8};
ghost use Rattle.json_words.specs.Json.{json_of};
ghost use Rattle.values.specs.declared.entity_uid.EntityUid.{EntityUid};
ghost use Rattle.serde_json.specs.Data.{Data};
ghost use Rattle.stamped_store.specs.EntryOrder.{PlainEntry};
ghost use Rattle.stamped_store.specs.Raised.{NumberedUpdate, HaveSiteNumbers, raise};
ghost use Rattle.stamped_store.specs.Store.{Store, Update as PlainUpdate, updates, policy_name};
ghost use Rattle.sync_format.specs.declared.fault.MessageFault.{MessageFault};
ghost use Rattle.sync_format.specs.declared.fault.MessageFault.TheVariants.{BodyOfOtherName};
ghost use Rattle.sync_format.specs.Summaries.{number_at};
ghost use Rattle.sync_format.specs.declared.update.Update.{Update};
ghost use Rattle.sync_format.specs.declared.bodies.BodyFault.TheVariants.{OtherName};
ghost use Rattle.sync_format.specs.Bodies.{HasOutcome, BodiesHaveOneOutcome};
ghost use Rattle.sync_format.specs.Messages.{state_json, delta_json, state_text, delta_text};
ghost use Rattle.sync_format.specs.Messages.{is_kind, updates_in, updates_json, updates_stated, updates_text};
ghost use Rattle.sync_format.specs.Numbered.{IsVersion1Message, numbered_message_json};
ghost use Rattle.sync_format.specs.Texts.{AreTexts};
ghost use Rattle.sync_format.specs.Updates.{AreInRange, AreValid, plain_updates};
ghost use Rattle.sync_format.specs.Updates.{IsMessage, IsFaultAt, IsMessageFault};

use crate::Bodies;
use crate::summary_laws::stamps_read_back;
use json_words::compact_texts_read_back;
use stamped_store::laws::site_names_are_recognized;

/// Proves the round trip of states and deltas. No-op.
///
/// If the names and stamps of the updates are in their ranges, the JSON of a state or delta is parsed as the updates
/// that it was written from. If also the label and the strings of the updates are UTF-8, the text is parsed as these
/// updates. If the same bytes are the states of two stores, or deltas with the entries of two stores, under one label,
/// these stores are equal. A list of updates is written and parsed as a delta is, in its order and with repeats; the
/// list of a store's updates is written as the store's delta.
pub fn messages_read_back()
    ensures states { (label : List ℕ) (s : Store) → AreInRange (updates s)
        → updates_in label (state_json label s) ≡ Ok (updates s) }
    ensures deltas { (label : List ℕ) (s : Store) → AreInRange (updates s)
        → updates_in label (delta_json label s) ≡ Ok (updates s) }
    ensures state_texts { (label : List ℕ) (s : Store) → IsUtf8 label → AreInRange (updates s) → AreTexts (updates s)
        → updates_stated label (state_text label s) ≡ Ok (updates s) }
    ensures delta_texts { (label : List ℕ) (s : Store) → IsUtf8 label → AreInRange (updates s) → AreTexts (updates s)
        → updates_stated label (delta_text label s) ≡ Ok (updates s) }
    ensures one_state { (label bytes : List ℕ) (s t : Store) → json_of bytes ≡ Some (state_json label s)
        → json_of bytes ≡ Some (state_json label t) → s ≡ t }
    ensures one_delta { (label bytes : List ℕ) (s t : Store) → json_of bytes ≡ Some (delta_json label s)
        → json_of bytes ≡ Some (delta_json label t) → s ≡ t }
    ensures lists { (label : List ℕ) (us : List PlainUpdate) → AreInRange us
        → updates_in label (updates_json label us) ≡ Ok us }
    ensures stores { (label : List ℕ) (s : Store) → updates_text label (updates s) ≡ delta_text label s }
{
    site_names_are_recognized();
    stamps_read_back();
    compact_texts_read_back();
}

/// Proves that bytes have one outcome as a message, if each text of a body has one. No-op.
///
/// Let each text of a body have at most one outcome. Then bytes are a message of at most one list of updates, or have
/// at most one error, and never both. If each text is also parsed or rejected, bytes are a message or have an error. If
/// no text of a policy is rejected with `OtherName`, no entry of a policy is rejected with `BodyOfOtherName`.
pub fn messages_have_one_outcome<P: Drop, E: Drop, B: Bodies<P, E>>()
    ensures updates { (b : B)
        → BodiesHaveOneOutcome (B.reads_policy b) (B.refuses_policy b) (B.reads_entity b) (B.refuses_entity b)
        → (label bytes : List ℕ) (us vs : List (Update P E))
        → IsMessage (B.reads_policy b) (B.reads_entity b) label bytes us
        → IsMessage (B.reads_policy b) (B.reads_entity b) label bytes vs → us ≡ vs }
    ensures fault { (b : B)
        → BodiesHaveOneOutcome (B.reads_policy b) (B.refuses_policy b) (B.reads_entity b) (B.refuses_entity b)
        → (label bytes : List ℕ) (f g : MessageFault)
        → IsMessageFault (B.reads_policy b) (B.reads_entity b) (B.refuses_policy b) (B.refuses_entity b) label bytes f
        → IsMessageFault (B.reads_policy b) (B.reads_entity b) (B.refuses_policy b) (B.refuses_entity b) label bytes g
        → f ≡ g }
    ensures apart { (b : B)
        → BodiesHaveOneOutcome (B.reads_policy b) (B.refuses_policy b) (B.reads_entity b) (B.refuses_entity b)
        → (label bytes : List ℕ) (us : List (Update P E)) (f : MessageFault)
        → IsMessage (B.reads_policy b) (B.reads_entity b) label bytes us
        → IsMessageFault (B.reads_policy b) (B.reads_entity b) (B.refuses_policy b) (B.refuses_entity b) label bytes f
        → ⊥ }
    ensures some { (b : B)
        → BodiesHaveOneOutcome (B.reads_policy b) (B.refuses_policy b) (B.reads_entity b) (B.refuses_entity b)
        → ((id text : List ℕ) → HasOutcome (B.reads_policy b id text) (B.refuses_policy b id text))
        → ((uid : EntityUid) (text : List ℕ) → HasOutcome (B.reads_entity b uid text) (B.refuses_entity b uid text))
        → (label bytes : List ℕ)
        → ((us : List (Update P E)) × IsMessage (B.reads_policy b) (B.reads_entity b) label bytes us)
        ⊎ ((f : MessageFault) × IsMessageFault (B.reads_policy b) (B.reads_entity b) (B.refuses_policy b)
        (B.refuses_entity b) label bytes f) }
    ensures named { (b : B) → ((id text : List ℕ) → B.refuses_policy b id text OtherName → ⊥) → (place other : ℕ)
        (id : List ℕ) (e : PlainEntry)
        → IsFaultAt (B.refuses_policy b) (B.refuses_entity b) place (policy_name id, e) (BodyOfOtherName other) → ⊥ }
{
    stamps_read_back();
}

/// Proves that a message of version 1 is parsed as the raise of its updates: each site's number, from 1 to 65,535, is
/// replaced by its five digits. No-op.
///
/// Bytes of version 1 that are parsed as updates are a message of version 1 with numbered updates. Numbered updates in
/// their ranges, as JSON of version 1, are parsed as their raise.
pub fn messages_are_raised()
    ensures raised { (label bytes : List ℕ) (ns : List NumberedUpdate) → IsVersion1Message label bytes ns
        → updates_stated label bytes ≡ Ok (raise ns) }
    ensures numbers { (label bytes : List ℕ) (ns : List NumberedUpdate) → IsVersion1Message label bytes ns
        → HaveSiteNumbers ns }
    ensures all { (label bytes : List ℕ) (d : Data) (us : List PlainUpdate) → json_of bytes ≡ Some d
        → number_at (codes "version") d ≡ Ok 1 → updates_stated label bytes ≡ Ok us
        → (ns : List NumberedUpdate) × IsVersion1Message label bytes ns }
    ensures back { (kind label : List ℕ) (ns : List NumberedUpdate) → is_kind kind ≡ true → HaveSiteNumbers ns
        → AreInRange (raise ns) → updates_in label (numbered_message_json kind label ns) ≡ Ok (raise ns) }
{
    stamps_read_back();
}

/// Proves that bytes that describe updates in their ranges are a message of these if and only if each of them is valid.
/// No-op.
pub fn valid_messages_are_read<P: Drop, E: Drop, B: Bodies<P, E>>()
    ensures read { (b : B) (label bytes : List ℕ) (us : List PlainUpdate) → updates_stated label bytes ≡ Ok us
        → AreInRange us → AreValid (B.reads_policy b) (B.reads_entity b) us
        → (all : List (Update P E)) × IsMessage (B.reads_policy b) (B.reads_entity b) label bytes all
        × (plain_updates all ≡ us) }
    ensures valid { (b : B) (label bytes : List ℕ) (us : List (Update P E))
        → IsMessage (B.reads_policy b) (B.reads_entity b) label bytes us
        → AreValid (B.reads_policy b) (B.reads_entity b) (plain_updates us) }
{}
