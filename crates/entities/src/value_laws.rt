//! Theorems about the JSON of values. The functions are no-ops.
ghost use Rattle.entities.specs.ValueLaws.{CanonicalValueIsRead, JsonIsReadAgain, CanonicalValueNests};
ghost use Rattle.entities.specs.ValueLaws.{WrittenIsReadAgain, RecordIsReadAgain, RecordNests, NoFloatIsWritten};

/// Proves that the canonical JSON of a parsed value is parsed as the same value, by the same type. No-op.
pub fn canonical_is_read()
    ensures { CanonicalValueIsRead }
{}

/// Proves that, whatever bytes a value was parsed from, any bytes with the value's canonical JSON are parsed as the
/// same value, by the same type. No-op.
pub fn json_is_read_again()
    ensures { JsonIsReadAgain }
{}

/// Proves that the canonical JSON of a parsed value nests at most one level deeper than the value's type. No-op.
pub fn canonical_nests_within_its_type()
    ensures { CanonicalValueNests }
{}

/// Proves that, whatever bytes a value was parsed from, the text written for the value is parsed as the same value, by
/// the same type, if the type is not too large for a schema. No-op.
pub fn written_is_read_again()
    ensures { WrittenIsReadAgain }
{}

/// Proves that the canonical JSON of a parsed record is parsed as the same record, by the same type, and nests at most
/// one level deeper than this type. No-op.
pub fn records_are_read_again()
    ensures again { RecordIsReadAgain }
    ensures nests { RecordNests }
{}

/// Proves that the canonical JSON of a value has no float: its numbers are integers. No-op.
pub fn values_have_no_float()
    ensures { NoFloatIsWritten }
{}
