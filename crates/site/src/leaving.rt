//! A theorem about the store at the end of a run. The function is a no-op.
ghost use Rattle.std.specs.Prelude.{◌≡◌, ◌++◌, ℕ, List};
ghost use Rattle.site_store.specs.schema.Schemas.{StatedSchema};
ghost use Rattle.site_store.specs.stamped_store.Store.{Store, store_of, updates};
ghost use Rattle.site.specs.Inputs.{Input};
ghost use Rattle.site.specs.declared.reply.Reply.{Reply};
ghost use Rattle.site.specs.Runs.{Run, took};

use site_store::updates_have_one_store;

/// Proves that the store at the end of a run is the join of the updates of the first store and those that the run
/// applied. No-op.
pub fn runs_leave_what_they_took()
    ensures { (schema : StatedSchema) (n : List ℕ) (s : Store) (inputs : List Input) (replies : List Reply) (t : Store)
        → Run schema n s inputs replies t → t ≡ store_of (updates s ++ took schema inputs replies) }
{
    updates_have_one_store();
}
