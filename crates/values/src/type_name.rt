//! Names of entity types.
ghost use Rattle.std.specs.Prelude.{◌≡◌, ◌↔◌, ◌<◌, IsTrue, Some, IfOk, MatchOption, length, map, refl};
ghost use Rattle.std.specs.Prelude.{◌++◌, OnOk, codes, string_bytes};
ghost use Rattle.std.specs.Ordering.{nat_cmp, is_eq};
ghost use Rattle.std.specs.Cmp.{partial_equiv_from_equiv, partial_order_from_agreeing_total};
ghost use Rattle.std.specs.Cmp.Lexicographic.{slice_cmp};
ghost use Rattle.std.proofs.lemmas.Cmp.{eq_by_cmp_equiv, nat_list_cmp_total};
ghost use Rattle.extensions.specs.plain.Words.{IsPath, AreIdents};
ghost use Rattle.values.specs.Paths.{path_of};

use crate::path::is_path;
use crate::shared_text::SharedText;
use extensions::{NoMemory, Text};
use std::alloc::Global;
use std::cmp::Ordering;
use std::marker::Model;

/// The name of an entity type: one or more identifiers, joined by `::`, such as `User` or `Photos::Album`. Contracts
/// see its bytes.
///
/// Each identifier is `_` or an ASCII letter, followed by `_`, ASCII letters and digits, and is not a reserved word
/// (Cedar reference guide, grammar: `Path`). Names are equal if their bytes are, and ordered by bytes.
#[derive(Drop)]
pub struct TypeName {
    text: SharedText,
}

impl Model for TypeName {
    ghost use Rattle.std.specs.Prelude.{List, ℕ};

    ghost Value = { List ℕ };

    ghost use Rattle.extensions.specs.plain.Words.{IsPath};

    ghost view = { λ t. t.text };

    ghost invariant = { λ t. IsPath t.text };
}

impl TypeName {
    /// Returns a string as a type name, or `None` if the string is not a Path written without whitespace and comments.
    /// The only error is `NoMemory`.
    pub fn parse(alloc: Global, text: &str) -> Result<Option<TypeName>, NoMemory>
        ensures { IfOk result (λ o. MatchOption o (IsPath text.now → ⊥) (λ t. IsPath text.now × (t ≡ text.now))) }
    {
        if !is_path(text.as_bytes()) {
            return Ok(None);
        }
        let text = SharedText::from_str(alloc, text)?;
        Ok(Some(TypeName { text }))
    }

    /// Returns the type name of the identifiers `words`, at least one, joined by `::`. The only error is `NoMemory`.
    ///
    /// The parser of policies calls this, since a Path of a policy may have whitespace and comments between its words.
    pub fn from_words(alloc: Global, words: &[&str]) -> Result<TypeName, NoMemory>
        requires some { 0 < length words.now }
        requires idents { AreIdents (map (λ w. w.now) words.now) }
        ensures { IfOk result (λ t. t ≡ path_of (map (λ w. w.now) words.now)) }
    {
        let mut joined = String::from_str(alloc, words[0])?;
        let more = &words[1..];
        for word in more {
            append_word(&mut joined, word)?;
        }
        let text = SharedText::from_text(alloc, Text::from_string(joined))?;
        Ok(TypeName { text })
    }

    /// Returns this name in a namespace: `Album` in `Photos` is `Photos::Album`. The only error is `NoMemory`.
    pub fn within(&self, alloc: Global, namespace: &TypeName) -> Result<TypeName, NoMemory>
        ensures { IfOk result (λ t. t ≡ namespace.now ++ codes "::" ++ self.now) }
    {
        let last = &self.text;
        let first = &namespace.text;
        let mut name = String::from_str(alloc, first.as_str())?;
        name.push_str("::")?;
        name.push_str(last.as_str())?;
        let text = SharedText::from_text(alloc, Text::from_string(name))?;
        Ok(TypeName { text })
    }

    /// Returns the name as a string. Does not allocate.
    pub fn as_str(&self) -> &str
        ensures { result.now ≡ self.now }
    {
        self.text.as_str()
    }

    /// Returns whether two names are equal. Does not allocate.
    pub fn same(&self, other: &TypeName) -> bool
        ensures { IsTrue result ↔ (self.now ≡ other.now) }
    {
        self.text.same(&other.text)
    }

    /// Returns a copy that shares its string. Does not allocate.
    ///
    /// # Errors
    ///
    /// - `NoMemory`: the count of references to the string would exceed 2^64 - 1.
    pub fn copy(&self) -> Result<TypeName, NoMemory>
        ensures { IfOk result (λ t. t ≡ self.now) }
    {
        let text = self.text.copy()?;
        Ok(TypeName { text })
    }
}

// Appends `::` and a word to a string.
fn append_word(joined: &mut String, word: &str) -> Result<(), NoMemory>
    ensures { OnOk result (string_bytes joined.new ≡ string_bytes joined.old ++ codes "::" ++ word.now) }
{
    joined.push_str("::")?;
    joined.push_str(word)?;
    Ok(())
}

impl PartialEq for TypeName {
    ghost eq = { λ s t. is_eq (slice_cmp nat_cmp s t) };

    ghost laws = { partial_equiv_from_equiv (eq_by_cmp_equiv nat_list_cmp_total) };

    fn eq(&self, other: &TypeName) -> bool {
        self.text == other.text
    }
}

impl Eq for TypeName {
    ghost laws = { eq_by_cmp_equiv nat_list_cmp_total };
}

impl PartialOrd for TypeName {
    ghost partial_cmp = { λ s t. Some (slice_cmp nat_cmp s t) };

    ghost laws = { partial_order_from_agreeing_total (slice_cmp nat_cmp) nat_list_cmp_total (λ s t. refl)
        (λ s t. refl) };

    fn partial_cmp(&self, other: &TypeName) -> Option<Ordering> {
        Some(self.cmp(other))
    }
}

impl Ord for TypeName {
    ghost cmp = { slice_cmp nat_cmp };

    ghost total = { nat_list_cmp_total };

    ghost matches_partial_cmp = { λ s t. refl };

    ghost matches_eq = { λ s t. refl };

    fn cmp(&self, other: &TypeName) -> Ordering {
        self.text.cmp(&other.text)
    }
}
