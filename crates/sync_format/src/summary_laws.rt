//! Theorems about summaries as messages. The functions are no-ops.
ghost use Rattle.std.specs.Prelude.{◌≡◌, true, Ok, List, ℕ};
ghost use Rattle.std.specs.Str.{IsUtf8};
ghost use Rattle.serde_json.specs.Data.{Data};
ghost use Rattle.values.specs.declared.name.Name.{Name};
ghost use Rattle.stamped_store.specs.declared.entry.Stamp.{Stamp};
ghost use Rattle.stamped_store.specs.Deltas.{Summary, summary_of};
ghost use Rattle.stamped_store.specs.Store.{Store};
ghost use Rattle.sync_format.specs.declared.version.MessageVersion.{MessageVersion};
ghost use Rattle.sync_format.specs.Summaries.{ascend, AreStamped, summary_json, summary_in};
ghost use Rattle.sync_format.specs.Summaries.{summary_text, summary_stated, IsWritten, IsName, IsStamped};
ghost use Rattle.sync_format.specs.NumberedSummaries.{NumberedStamp, HaveNumbers, raise_stamps};
ghost use Rattle.sync_format.specs.NumberedSummaries.{numbered_summary_json};
ghost use Rattle.sync_format.specs.Summaries.{name_json, name_in, stamped_in, checked_stamp};

use entity_uids::names_read_back;
use json_words::compact_texts_read_back;
use stamped_store::laws::site_names_are_recognized;
use values::path_tests_are_exact;

/// Proves the round trip of summaries. No-op.
///
/// If the names and stamps of a summary are in their ranges and its names ascend, its JSON is parsed as that summary.
/// If also the label and the strings of the summary are UTF-8, its text is parsed as that summary, and two such
/// summaries with one text under one label are equal. The JSON of a summary of version 1 has numbers from 1 to 65,535
/// as sites. It is parsed as the summary in which five digits replace each number, if that summary meets the first
/// conditions. A parsed summary has names and stamps in their ranges, and its names ascend. The names of a store's
/// summary ascend.
pub fn summaries_read_back()
    ensures back { (label : List ℕ) (m : Summary) → AreStamped m → ascend m ≡ true
        → summary_in label (summary_json label m) ≡ Ok m }
    ensures numbered { (label : List ℕ) (ns : List NumberedStamp) → HaveNumbers ns → AreStamped (raise_stamps ns)
        → ascend (raise_stamps ns) ≡ true
        → summary_in label (numbered_summary_json label ns) ≡ Ok (raise_stamps ns) }
    ensures sound { (label bytes : List ℕ) (m : Summary) → summary_stated label bytes ≡ Ok m
        → AreStamped m × (ascend m ≡ true) }
    ensures ascending { (s : Store) → ascend (summary_of s) ≡ true }
    ensures text { (label : List ℕ) (m : Summary) → IsUtf8 label → IsWritten m
        → summary_stated label (summary_text label m) ≡ Ok m }
    ensures one_text { (label : List ℕ) (m n : Summary) → IsUtf8 label → IsWritten m → IsWritten n
        → summary_text label m ≡ summary_text label n → m ≡ n }
{
    path_tests_are_exact();
    site_names_are_recognized();
    compact_texts_read_back();
    names_read_back();
}

/// Proves the round trip of names and stamps. No-op.
///
/// The JSON of a name in its range is parsed as that name. A name and a stamp in their ranges pass [`check_stamp`]'s
/// checks. A name and a stamp that are parsed and pass these checks are in their ranges.
pub fn stamps_read_back()
    ensures names { (n : Name) → IsName n → name_in (name_json n) ≡ Ok n }
    ensures checked_stamp { (place : ℕ) (u : Name × Stamp) → IsStamped u → checked_stamp place u ≡ Ok u }
    ensures sound { (place : ℕ) (version : MessageVersion) (d : Data) (u v : Name × Stamp)
        → stamped_in version d ≡ Ok u → checked_stamp place u ≡ Ok v → IsStamped u }
{
    path_tests_are_exact();
    site_names_are_recognized();
    names_read_back();
}
