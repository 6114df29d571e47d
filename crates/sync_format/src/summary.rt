//! Summaries: each name of a store, with the stamp of its entry.
ghost use Rattle.std.specs.Prelude.{◌≡◌, true};
ghost use Rattle.sync_format.specs.Summaries.{ascend};

use stamped_store::Stamp;
use std::marker::Model;
use values::Name;

/// The names of a store with the stamps of their entries. The names ascend strictly, policies before entities.
#[derive(Drop)]
pub struct Summary {
    pub(crate) stamps: Vec<(Name, Stamp)>,
}

impl Model for Summary {
    ghost use Rattle.std.specs.Prelude.{◌≡◌, List, true};
    ghost use Rattle.values.specs.declared.name.Name.{Name};
    ghost use Rattle.stamped_store.specs.declared.entry.Stamp.{Stamp};
    ghost use Rattle.sync_format.specs.Summaries.{ascend};

    ghost Value = { List (Name × Stamp) };

    ghost view = { λ s. s.stamps.items };

    ghost invariant = { λ s. ascend s.stamps.items ≡ true };
}

impl Summary {
    /// Returns the names with their stamps, in ascending order.
    pub fn stamps(&self) -> &[(Name, Stamp)]
        ensures all { result.now ≡ self.now }
        ensures ascending { ascend result.now ≡ true }
    {
        &self.stamps
    }
}
