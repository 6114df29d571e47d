//! The members of an array, read one after another, so that a caller need not have all of them in memory.
ghost use Rattle.std.specs.Prelude.{◌≡◌, ◌<◌, length, is_some, IfOk, IfSome, MatchOption};
ghost use Rattle.std.specs.Str.{IsUtf8};
ghost use Rattle.json.specs.Lex.{tokens};
ghost use Rattle.json_words.specs.Arrays.{array_of, unread_members, IsNextMember, IsFewer};

use crate::reading::{opens_array, value_in};
use crate::with_scratch::MOST_DEPTH;
use json::{Reader, Scratch};
use plain::NoMemory;
use serde_json::Value;
use std::alloc::Global;

/// The remaining members of a JSON array.
#[derive(Drop)]
pub struct ArrayMembers<'a> {
    reader: Reader<'a>,
}

/// The next member of an array, the end of the array, or the finding that the text is not JSON.
#[derive(Drop)]
pub enum Member {
    /// The next member, if the text is JSON. If a later call returns `NotJson`, this value is unspecified.
    Value(Value),
    /// The array ends, and the text with it.
    End,
    /// The text is not JSON.
    NotJson,
}

/// Returns the members of the array that `bytes` begin with, or `None` if they are not UTF-8 or their first token is
/// not `[`.
///
/// Reading the members shows whether the bytes are JSON: if they are not, the last call of [`ArrayMembers::next`]
/// returns [`Member::NotJson`] in place of [`Member::End`]. The last value of a duplicate key counts, and arrays and
/// objects nest at most 127 deep, including the array itself. A scratch that is shorter than `bytes` grows to their
/// length; its earlier content does not matter. The only error is `NoMemory`.
pub fn members_of<'a>(
    scratch: &'a mut Scratch,
    bytes: &'a [u8],
) -> Result<Option<ArrayMembers<'a>>, NoMemory>
    ensures begun { IfOk result (λ o. MatchOption o (array_of bytes.now ≡ None)
        (λ members. array_of bytes.now ≡ unread_members members)) }
    ensures fewer { IfOk result (λ o. IfSome o (λ members. length members.reader < length bytes.now)) }
{
    match str::from_utf8(bytes) {
        Ok(text) => members_in(scratch, text),
        Err(_) => Ok(None),
    }
}

/// Returns the members of the array that a text begins with, or `None` if its first token is not `[`.
fn members_in<'a>(
    scratch: &'a mut Scratch,
    text: &'a str,
) -> Result<Option<ArrayMembers<'a>>, NoMemory>
    requires { IsUtf8 text.now }
    ensures begun { IfOk result (λ o. MatchOption o (array_of text.now ≡ None)
        (λ members. array_of text.now ≡ unread_members members)) }
    ensures fewer { IfOk result (λ o. IfSome o (λ members. length members.reader < length text.now)) }
{
    let mut reader = Reader::new(text, scratch)?;
    let token = match reader.next() {
        Some(token) => token,
        None => return Ok(None),
    };
    if opens_array(&token) {
        Ok(Some(ArrayMembers { reader }))
    } else {
        Ok(None)
    }
}

impl<'a> ArrayMembers<'a> {
    /// Returns the next member; or `End`, if the array and the text end; or `NotJson`, if the text is found not to be
    /// JSON.
    ///
    /// The only error is `NoMemory`. After an error, `End` or `NotJson`, the results of further calls are unspecified.
    pub fn next(&mut self, alloc: Global) -> Result<Member, NoMemory>
        ensures told { IfOk result (λ member. IsNextMember member (unread_members self.old) (unread_members self.new)) }
        ensures fewer { IfOk result (λ member. IsFewer member (length self.old.reader) (length self.new.reader)) }
    {
        if self.reader.take_end_array() {
            return match self.reader.next() {
                None => Ok(Member::End),
                Some(_) => Ok(Member::NotJson),
            };
        }
        match value_in(alloc, &mut self.reader, MOST_DEPTH - 1)? {
            Some(value) => Ok(Member::Value(value)),
            None => Ok(Member::NotJson),
        }
    }

    /// Reads the rest of the text and returns whether the text is JSON. Drops each member as soon as it is read.
    ///
    /// A caller that rejects a member calls this, and reports the member's error only if the text is JSON. The only
    /// error is `NoMemory`.
    pub fn rest_is_json(&mut self, alloc: Global) -> Result<bool, NoMemory>
        ensures { IfOk result (λ b. b ≡ is_some (unread_members self.old)) }
    {
        'rest: loop {
            match self.next(alloc)? {
                Member::Value(value) => drop(value),
                Member::End => return Ok(true),
                Member::NotJson => return Ok(false),
            }
        }
    }
}
