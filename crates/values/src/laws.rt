//! Theorems about sets, records and values, and about the tests for identifiers and Paths. The functions are no-ops.
ghost use Rattle.std.specs.Prelude.{◌≡◌, ◌≢◌, ℕ, List, Some};
ghost use Rattle.values.specs.Fields.{find_field, put};
ghost use Rattle.values.specs.Laws.{SetsHoldTheirMembers, SetsAreOneList, MemberTestIsExact, MembersAreFound};
ghost use Rattle.values.specs.Laws.{KeysStayAscending, FieldsDetermineRecords, OrderOfFieldsDoesNotMatter};
ghost use Rattle.values.specs.Laws.{LaterValueWins};
ghost use Rattle.values.specs.Laws.{SetsAreWellFormed, MembersAreWellFormed, RecordsStayWellFormed};
ghost use Rattle.values.specs.Laws.{FieldsAreWellFormed};
ghost use Rattle.values.specs.Paths.{IdentTestIsExact, PathTestIsExact};

use crate::record::Record;
use crate::value::Value;

/// Proves that a set is determined by its members: its list is the only one that ascends strictly and has exactly the
/// values that the set was made of. The test for a member finds exactly the members, and so does a binary search.
/// No-op.
pub fn sets_hold_their_members()
    ensures made { SetsHoldTheirMembers }
    ensures one { SetsAreOneList }
    ensures told { MemberTestIsExact }
    ensures found { MembersAreFound }
{}

/// Proves that a record is a finite map. A field has the value that it was set to, the later one if it was set twice.
/// Setting a field leaves the other fields unchanged, and keeps the keys strictly ascending. Records with equal fields
/// are equal. The order in which two fields with different keys are set does not matter. No-op.
pub fn records_are_maps()
    ensures here { (key : List ℕ) (value : Value) (fields : Record)
        → find_field key (put key value fields) ≡ Some value }
    ensures others { (key other : List ℕ) (value : Value) (fields : Record) → other ≢ key
        → find_field other (put key value fields) ≡ find_field other fields }
    ensures ascending { KeysStayAscending }
    ensures same { FieldsDetermineRecords }
    ensures order { OrderOfFieldsDoesNotMatter }
    ensures later { LaterValueWins }
{}

/// Proves that values stay well formed at every depth: the members of each set ascend strictly, and so do the keys of
/// each record. No-op.
///
/// A set of well-formed values is well formed, and so is a well-formed record in which a field is set to a well-formed
/// value. The members of a well-formed set, and the values of a well-formed record's fields, are well formed.
pub fn values_stay_well_formed()
    ensures sets { SetsAreWellFormed }
    ensures members { MembersAreWellFormed }
    ensures records { RecordsStayWellFormed }
    ensures fields { FieldsAreWellFormed }
{}

/// Proves that the test `is_ident` of specs/Paths.antt accepts exactly the identifiers, and `is_path` there exactly the
/// Paths. No-op.
pub fn path_tests_are_exact()
    ensures idents { IdentTestIsExact }
    ensures paths { PathTestIsExact }
{}
