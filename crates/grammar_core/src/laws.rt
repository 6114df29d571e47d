//! Theorems about patterns of `like`. The function is a no-op.
ghost use Rattle.grammar_core.specs.LikeTest.{IsDecided, LiteralsMatchThemselves, WildcardMatchesAll};

/// Proves that the test `is_match` decides which strings match a pattern. A pattern without a wildcard matches only its
/// literal text, and the pattern `*` matches every string. No-op.
pub fn patterns_are_decided()
    ensures decided { IsDecided }
    ensures alone { LiteralsMatchThemselves }
    ensures any { WildcardMatchesAll }
{}
