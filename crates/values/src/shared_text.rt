//! Shared strings.
ghost use Rattle.std.specs.Prelude.{◌≡◌, ◌↔◌, IsTrue, IfOk, Some, refl};
ghost use Rattle.std.specs.Ordering.{nat_cmp, is_eq};
ghost use Rattle.std.specs.Cmp.{partial_equiv_from_equiv, partial_order_from_agreeing_total};
ghost use Rattle.std.specs.Cmp.Lexicographic.{slice_cmp};
ghost use Rattle.std.proofs.lemmas.Cmp.{eq_by_cmp_equiv, nat_list_cmp_total};

use extensions::{NoMemory, Shared, Text};
use std::alloc::Global;
use std::cmp::Ordering;
use std::marker::Model;

/// A reference-counted string, used in names. Contracts see its bytes in UTF-8, however many references there are.
///
/// Each further reference takes eight bytes, and does not allocate. Equal strings that were created separately are
/// stored separately. Strings are equal if their bytes are, and are ordered by bytes.
#[derive(Drop)]
pub struct SharedText {
    content: Shared<Text>,
}

impl Model for SharedText {
    ghost use Rattle.std.specs.Prelude.{List, ℕ};

    ghost Value = { List ℕ };

    ghost view = { λ t. t.content };
}

impl SharedText {
    /// Creates a string of the characters of `content`, with one reference, or returns `NoMemory`.
    pub fn from_str(alloc: Global, content: &str) -> Result<SharedText, NoMemory>
        ensures { IfOk result (λ t. t ≡ content.now) }
    {
        let text = Text::from_str(alloc, content)?;
        SharedText::from_text(alloc, text)
    }

    /// Creates a string with one reference, without copying its characters, or returns `NoMemory`.
    pub fn from_text(alloc: Global, text: Text) -> Result<SharedText, NoMemory>
        ensures { IfOk result (λ t. t ≡ text) }
    {
        let content = Shared::new(alloc, text)?;
        Ok(SharedText { content })
    }

    /// Returns the characters. Does not allocate.
    pub fn as_str(&self) -> &str
        ensures { result.now ≡ self.now }
    {
        self.content.as_str()
    }

    /// Returns whether two strings have the same bytes. Does not allocate.
    pub fn same(&self, other: &SharedText) -> bool
        ensures { IsTrue result ↔ (self.now ≡ other.now) }
    {
        self.as_str() == other.as_str()
    }

    /// Returns one more reference to the string. Does not allocate.
    ///
    /// # Errors
    ///
    /// - `NoMemory`: the count of references would exceed 2^64 - 1.
    pub fn copy(&self) -> Result<SharedText, NoMemory>
        ensures { IfOk result (λ t. t ≡ self.now) }
    {
        let content = self.content.share()?;
        Ok(SharedText { content })
    }
}

impl PartialEq for SharedText {
    ghost eq = { λ s t. is_eq (slice_cmp nat_cmp s t) };

    ghost laws = { partial_equiv_from_equiv (eq_by_cmp_equiv nat_list_cmp_total) };

    fn eq(&self, other: &SharedText) -> bool {
        self.content == other.content
    }
}

impl Eq for SharedText {
    ghost laws = { eq_by_cmp_equiv nat_list_cmp_total };
}

impl PartialOrd for SharedText {
    ghost partial_cmp = { λ s t. Some (slice_cmp nat_cmp s t) };

    ghost laws = { partial_order_from_agreeing_total (slice_cmp nat_cmp) nat_list_cmp_total (λ s t. refl)
        (λ s t. refl) };

    fn partial_cmp(&self, other: &SharedText) -> Option<Ordering> {
        Some(self.cmp(other))
    }
}

impl Ord for SharedText {
    ghost cmp = { slice_cmp nat_cmp };

    ghost total = { nat_list_cmp_total };

    ghost matches_partial_cmp = { λ s t. refl };

    ghost matches_eq = { λ s t. refl };

    fn cmp(&self, other: &SharedText) -> Ordering {
        self.content.cmp(&other.content)
    }
}
