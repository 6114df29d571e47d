//! A theorem of a lower crate about any parser of texts, instantiated at the parser under a schema.
ghost use Rattle.std.specs.Prelude.{[], String, string_bytes};
ghost use Rattle.std.specs.String.{string_cmp};
ghost use Rattle.std.specs.declared.alloc.Global.{Global};
ghost use Rattle.values.specs.declared.entity_uid.EntityUid.{EntityUid};
ghost use Rattle.values.specs.Names.{uid_cmp};
ghost use Rattle.site_store.specs.policy_grammar.declared.policy.Policy.{Policy};
ghost use Rattle.site_store.specs.schema.SchemaEntries.{SchemaEntries as SchemaKept};
ghost use Rattle.site_store.specs.schema.Views.{schema_view};
ghost use Rattle.site_store.specs.entity_data.declared.entity.Entity.{Entity};
ghost use Rattle.site_store.specs.stamped_store.declared.entry.Entry.{Entry};
ghost use Rattle.site_store.specs.stamped_store.EntryOrder.{greater};
ghost use Rattle.site_store.specs.stamped_store.Reading.{IsEntryRead};
ghost use Rattle.site_store.specs.stamped_store.Store.{StoreEntries, concrete_entries};
ghost use Rattle.site_store.specs.stamped_store.JoinMaps.{taken};
ghost use Rattle.site.specs.Admitted.{IsPolicyUnder, IsEntityUnder};
ghost use Rattle.site.specs.SiteViews.{IsHeld};

use site_store::{Entity, Policy, readings_are_preserved};
use sync_messages::SchemaTexts;

/// Proves an invariant of stores: each text is parsed as the value that is stored with it. No-op.
///
/// The empty store has the invariant. The join of an entry preserves it, if the text of the entry is parsed as the
/// entry's parsed value.
pub(crate) fn readings_stay()
    ensures empty { (schema : SchemaKept) → IsHeld (schema_view schema) (concrete_entries [] []) }
    ensures policy { (schema : SchemaKept) (k : StoreEntries Policy Entity) (id : String Global) (entry : Entry Policy)
        → IsHeld (schema_view schema) k → IsEntryRead (IsPolicyUnder (schema_view schema) (string_bytes id)) entry
        → IsHeld (schema_view schema) (concrete_entries (taken string_cmp greater k.policies id entry) k.entities) }
    ensures entity { (schema : SchemaKept) (k : StoreEntries Policy Entity) (uid : EntityUid) (entry : Entry Entity)
        → IsHeld (schema_view schema) k → IsEntryRead (IsEntityUnder (schema_view schema) uid) entry
        → IsHeld (schema_view schema) (concrete_entries k.policies (taken uid_cmp greater k.entities uid entry)) }
{
    readings_are_preserved::<Policy, Entity, SchemaTexts<'static>>()
}
