//! The table of error codes.
ghost use Rattle.std.specs.Prelude.{◌≡◌, ◌==◌, true, IfSome, is_some, option_map, map};
ghost use Rattle.std.specs.List.{find};
ghost use Rattle.explanations.specs.Codes.{is_code};
ghost use Rattle.explanations.specs.CodeText.{texts_of, rows_of_group, words_on};
ghost use Rattle.explanations.specs.Printable.{is_clean};

/// The texts on an error code, each a `T`. The type is generic so that contracts can name the rows of the table.
pub struct CodeWords<T> {
    /// The error code (docs/codes.md).
    pub code: u16,
    /// The name of the code, of one to three words.
    pub name: T,
    /// What is rejected with this code.
    pub meaning: T,
    /// An example of what is rejected with this code.
    pub example: T,
    /// What is wrong, in the words of the first line of an explanation. The cause follows, if there is one.
    pub says: T,
    /// What to do.
    pub advice: T,
}

// Errors of any call, or of opening a site.
static ANY_CALL: [CodeWords<&str>; 2] = [
    CodeWords {
        code: 1,
        name: "out of memory",
        meaning: "an allocation failed, as for a file larger than `ulimit -v` allows",
        example: "a file of 1 GB under `ulimit -v 500000`",
        says: "out of memory",
        advice: "allow the process more memory, or give it a smaller file",
    },
    CodeWords {
        code: 2,
        name: "site name",
        meaning: "a program opens a site under a name that is not a site name (docs/embedding.md)",
        example: "the empty name",
        says: "this is not the name of a site",
        advice: "use 1 to 32 letters, digits, `-`, `_` and `.`",
    },
];

// Policies that do not parse.
static POLICIES: [CodeWords<&str>; 10] = [
    CodeWords {
        code: 10,
        name: "bad token",
        meaning: "no token begins here; a string is not closed or has a bad escape (place: its quote); bytes are not UTF-8 (place 0)",
        example: "`permit(principal, action, #);`",
        says: "no token begins here, or a string is not closed or has a bad escape",
        advice: "close a string with a quote, also one that began before; write `==` for `=`; escapes are \\n, \\r, \\t, \\\\, \\0, \\', \\\", \\x41 and \\u{1F600}",
    },
    CodeWords {
        code: 11,
        name: "unexpected",
        meaning: "the first token that continues no policy, or the end of a text that ends too early (place: its length)",
        example: "`permit(principal, action);`",
        says: "unexpected",
        advice: "look before it: a comma, a bracket, an operator or `;` may be missing; a policy is `permit(principal, action, resource) when { .. };`",
    },
    CodeWords {
        code: 12,
        name: "number range",
        meaning: "a number outside signed 64 bits",
        example: "`.. when { 9223372036854775808 > 0 };`",
        says: "outside signed 64 bits:",
        advice: "write a number from -9223372036854775808 to 9223372036854775807",
    },
    CodeWords {
        code: 13,
        name: "unknown call",
        meaning: "no function, or in `x.f()` no method, has this name",
        example: "`.. when { now() == 1 };`",
        says: "no function or method is called",
        advice: "functions: ip, decimal; methods such as contains, containsAll, lessThan, isInRange: docs/language.md",
    },
    CodeWords {
        code: 14,
        name: "arity",
        meaning: "a known call with a wrong number of arguments",
        example: "`.. when { ip() == 1 };`",
        says: "wrong number of arguments to",
        advice: "isIpv4, isIpv6, isLoopback and isMulticast take none; every other function or method takes one",
    },
    CodeWords {
        code: 15,
        name: "repeated key",
        meaning: "a record's key, an annotation or a policy's name occurs twice",
        example: "`.. when { {a: 1, \"a\": 2} == {} };`",
        says: "repeated:",
        advice: "remove one of the two, or give it another name; a policy without `@id` has the name `policy` and its index",
    },
    CodeWords {
        code: 16,
        name: "slot",
        meaning: "instead of 11 at `?principal` or `?resource`: templates are not accepted",
        example: "`permit(principal == ?principal, action, resource);`",
        says: "templates are not supported:",
        advice: "write the entity in its place, in a policy for each",
    },
    CodeWords {
        code: 17,
        name: "too deep",
        meaning: "over 64 levels of nesting, or a policy of over 1,000,000 nodes or higher than 1,000",
        example: "64 parentheses around `true`",
        says: "nested over 64 levels deep, or too large",
        advice: "remove brackets, or cut the condition into several policies",
    },
    CodeWords {
        code: 18,
        name: "too long",
        meaning: "the text of one policy of over 262,144 bytes, at a site or in a message; a file of over 8,388,608",
        example: "`permit(principal, action, resource);` and 262,109 blanks, put at a site",
        says: "the text is too long",
        advice: "cut the policy into several, or the file: one policy has at most 262,144 bytes, a file 8,388,608",
    },
    CodeWords {
        code: 19,
        name: "bad id",
        meaning: "an id of 0 or over 256 bytes, of `@id` or put at a site; an id in a route that is not UTF-8",
        example: "`@id(\"\") permit(principal, action, resource);`",
        says: "an id has no byte, or over 256",
        advice: "give each `@id` 1 to 256 bytes of UTF-8",
    },
];

// Schemas.
static SCHEMAS: [CodeWords<&str>; 6] = [
    CodeWords {
        code: 20,
        name: "not JSON",
        meaning: "the bytes are not JSON",
        example: "`{`",
        says: "this is not JSON",
        advice: "correct the JSON: UTF-8, no comments, no comma after a last member",
    },
    CodeWords {
        code: 21,
        name: "bad shape",
        meaning: "JSON of another shape than docs/formats.md demands; a shape or a context that is not a record",
        example: "`{\"\":{\"actions\":true}}`",
        says: "JSON, but not of the shape of a schema",
        advice: "compare each key with `Schemas` in docs/formats.md; a shape and a context are records",
    },
    CodeWords {
        code: 22,
        name: "unknown name",
        meaning: "a name that is not declared",
        example: "`{\"\":{\"commonTypes\":{\"T\":{\"type\":\"S\"}}}}`",
        says: "a name is declared nowhere",
        advice: "declare it, or correct its spelling or its namespace",
    },
    CodeWords {
        code: 23,
        name: "type cycle",
        meaning: "a common type refers to itself, directly or not",
        example: "`{\"\":{\"commonTypes\":{\"T\":{\"type\":\"T\"}}}}`",
        says: "a common type refers to itself",
        advice: "replace one name of the cycle by the type itself",
    },
    CodeWords {
        code: 24,
        name: "action cycle",
        meaning: "an action is its own ancestor",
        example: "`{\"\":{\"actions\":{\"a\":{\"memberOf\":[{\"id\":\"a\"}]}}}}`",
        says: "an action is its own ancestor",
        advice: "remove one `memberOf` of the cycle",
    },
    CodeWords {
        code: 25,
        name: "type too large",
        meaning: "a type that, written out, has over 10,000 parts or is over 64 deep",
        example: "64 nested sets around a `Long`",
        says: "a type, written out, has over 10,000 parts or is over 64 deep",
        advice: "make the type smaller, as by an entity in place of a record",
    },
];

// Entities and requests.
static ENTITIES: [CodeWords<&str>; 10] = [
    CodeWords {
        code: 30,
        name: "bad shape",
        meaning: "not JSON, or JSON of another shape than docs/formats.md demands; an entity that occurs a second time in its file",
        example: "`[{\"uid\":{\"type\":\"User\"}}]`",
        says: "not JSON, or JSON of another shape, or an entity that occurs twice",
        advice: "give an array of objects with `uid`, each uid once; a request has principal, action and resource; attributes and a context need a schema",
    },
    CodeWords {
        code: 31,
        name: "unknown type",
        meaning: "the entity type is not declared",
        example: "`{\"uid\":{\"type\":\"Ghost\",\"id\":\"x\"}}`",
        says: "no entity type of this name is declared",
        advice: "declare the type in the schema, or write the type's whole name, with its namespace",
    },
    CodeWords {
        code: 32,
        name: "action entity",
        meaning: "the last word of an entity's type is `Action`: actions are in the schema",
        example: "`{\"uid\":{\"type\":\"Action\",\"id\":\"view\"}}`",
        says: "actions are declared in the schema, not among entities",
        advice: "remove the entity; declare the action in the schema",
    },
    CodeWords {
        code: 33,
        name: "undeclared attribute",
        meaning: "the type does not declare the attribute",
        example: "`\"attrs\":{\"zip\":1}`",
        says: "an attribute is not declared",
        advice: "remove the attribute, or declare it in the shape of its type",
    },
    CodeWords {
        code: 34,
        name: "missing attribute",
        meaning: "a required attribute is missing",
        example: "`\"attrs\":{}`",
        says: "a required attribute is missing",
        advice: "give the attribute, or declare it with `\"required\":false`",
    },
    CodeWords {
        code: 35,
        name: "wrong type",
        meaning: "an attribute's value has another type; also a record that lacks a required key or has an undeclared one",
        example: "`\"attrs\":{\"age\":\"1\"}`",
        says: "a value is of another type than declared",
        advice: "write it by its type: a Long without quotes, an entity as `{\"type\":T,\"id\":I}`",
    },
    CodeWords {
        code: 36,
        name: "bad parent",
        meaning: "an entity of this type must not have a parent of that type",
        example: "a document as the parent of a user",
        says: "no entity of this type may have a parent of that type",
        advice: "remove the parent, or let `memberOfTypes` lead from the one type to the other",
    },
    CodeWords {
        code: 37,
        name: "self-parent",
        meaning: "an entity is its own parent",
        example: "`\"uid\"` among its own `\"parents\"`",
        says: "an entity is its own parent",
        advice: "remove it from its parents",
    },
    CodeWords {
        code: 38,
        name: "tags",
        meaning: "tags that are not empty; Cedar 4.0 has none",
        example: "`\"tags\":{\"a\":1}`",
        says: "Cedar 4.0 has no tags",
        advice: "make an attribute of each tag",
    },
    CodeWords {
        code: 39,
        name: "not applicable",
        meaning: "the action is not declared, or does not apply to these types of principal and resource, declared or not",
        example: "`\"action\":\"Action::\\\"fly\\\"\"`",
        says: "the action is not declared, or does not apply to these types of principal and resource",
        advice: "look at the action's `appliesTo` in the schema",
    },
];

// Policies that do not pass validation.
static TYPES: [CodeWords<&str>; 7] = [
    CodeWords {
        code: 40,
        name: "unknown entity type",
        meaning: "an entity type that is not declared",
        example: "`principal == Ghost::\"x\"`",
        says: "undeclared entity type",
        advice: "write the type's whole name, with its namespace, or declare it in the schema",
    },
    CodeWords {
        code: 41,
        name: "unknown action",
        meaning: "an action that is not declared",
        example: "`action == Action::\"fly\"`",
        says: "undeclared action",
        advice: "write an action of the schema, with the namespace of its type",
    },
    CodeWords {
        code: 42,
        name: "wrong type",
        meaning: "another type is demanded",
        example: "`1 + true == 2`",
        says: "an operand does not have the type that its operator takes",
        advice: "arithmetic and `<` take Longs, `&&`, `!` and conditions Booleans, `like` Strings, `in` entities, methods of addresses `ip(..)`",
    },
    CodeWords {
        code: 43,
        name: "no common type",
        meaning: "two types have no common type; `==` of two literals, or of two entity types, is False instead",
        example: "`principal == 1`",
        says: "two types have no common type",
        advice: "compare values of one type, and write members of a set and the branches of an if of one type",
    },
    CodeWords {
        code: 44,
        name: "attribute",
        meaning: "it is not declared, or is optional and its presence was not tested",
        example: "`principal.age > 3` without `principal has age &&`",
        says: "undeclared or optional attribute",
        advice: "if it is not declared, correct its name; if it is optional, write `x has a && x.a`, or `x is T &&` where not each type has it",
    },
    CodeWords {
        code: 45,
        name: "empty set",
        meaning: "the type of its members is not known",
        example: "`[] == [1]`",
        says: "the type of an empty set's members is not known",
        advice: "write a set with a member, or declare an attribute that is the set",
    },
    CodeWords {
        code: 46,
        name: "extension text",
        meaning: "`ip` or `decimal` without a string of its grammar",
        example: "`decimal(\"1.\") == decimal(\"1.0\")`",
        says: "ip or decimal without a string of its grammar",
        advice: "write the string itself: ip(\"10.0.0.0/8\"), decimal(\"1.5\") of one to four decimals",
    },
];

// Messages between sites.
static MESSAGES: [CodeWords<&str>; 8] = [
    CodeWords {
        code: 50,
        name: "not JSON",
        meaning: "the bytes are not JSON",
        example: "`{`",
        says: "this is not JSON",
        advice: "fetch the message again, whole",
    },
    CodeWords {
        code: 51,
        name: "bad shape",
        meaning: "JSON of another shape than docs/formats.md demands; names of a summary that do not ascend; a site out of range; a number outside unsigned 64 bits",
        example: "`{\"kind\":\"state\"}`",
        says: "JSON, but not of the shape of a message",
        advice: "take a message as a site writes it: a state or a delta, or a summary to get a delta",
    },
    CodeWords {
        code: 52,
        name: "another schema",
        meaning: "a message with the label of another schema",
        example: "`\"schema\":\"0\"`",
        says: "the message is under another schema",
        advice: "give both sites the same schema, byte for byte",
    },
    CodeWords {
        code: 53,
        name: "another version",
        meaning: "a version other than 1 and 2",
        example: "`\"version\":3`",
        says: "the message has another version than 1 and 2",
        advice: "let both sites run the same release",
    },
    CodeWords {
        code: 54,
        name: "bad count",
        meaning: "a count of 0 or over 10^18, in unsigned 64 bits (else 51)",
        example: "`\"count\":0`",
        says: "a stamp's count is 0 or over 10^18",
        advice: "take the message as a site wrote it",
    },
    CodeWords {
        code: 55,
        name: "bad entry",
        meaning: "a name or a body is rejected; `within`: 10 to 19, 30 to 38, 40 to 46, or 57",
        example: "a body `permit`: within 11",
        says: "an entry's name or body is rejected",
        advice: "take the message as a site wrote it",
    },
    CodeWords {
        code: 56,
        name: "another name",
        meaning: "the body of an entry is another entity's",
        example: "the body of `User::\"alice\"` under `\"name\":{\"entity\":{\"id\":\"bob\",\"type\":\"User\"}}`",
        says: "an entry's body is another entity's",
        advice: "take the message as a site wrote it",
    },
    CodeWords {
        code: 57,
        name: "not canonical",
        meaning: "only within 55: a text that is not the canonical one of its entity (docs/formats.md)",
        example: "a blank after it",
        says: "an entity's text is not its canonical one",
        advice: "write the entity as docs/formats.md says, or put it at a site, which does",
    },
];

// Commands and requests at a site.
static COMMANDS: [CodeWords<&str>; 4] = [
    CodeWords {
        code: 60,
        name: "not there",
        meaning: "no policy or entity has this name",
        example: "`DELETE /v1/policies/teams` a second time",
        says: "no policy or entity has this name",
        advice: "look at the ids that `GET /v1/state` shows",
    },
    CodeWords {
        code: 61,
        name: "would cycle",
        meaning: "the put would make the entity its own ancestor",
        example: "team `b` with the parent `a`, where `a` has the parent `b`",
        says: "the entity would be on a cycle of parents",
        advice: "remove a parent of the cycle first",
    },
    CodeWords {
        code: 62,
        name: "clock full",
        meaning: "no stamp is left: the greatest count in the store is 10^18",
        example: "any put after a message with `\"count\":1000000000000000000`",
        says: "no stamp is left",
        advice: "start new sites from the policies and entities of a state",
    },
    CodeWords {
        code: 63,
        name: "not a request",
        meaning: "the body is not a request under the schema; `within`: 30, 33, 34, 35 or 39",
        example: "the body `who?` at `/v1/authorize`: within 30",
        says: "no request under the schema",
        advice: "look up the code that `within` gives",
    },
];

// HTTP statuses in place of a code.
static HTTP: [CodeWords<&str>; 6] = [
    CodeWords {
        code: 400,
        name: "bad request",
        meaning: "a head that is malformed or over its limits; a length that is not a number or is repeated",
        example: "`GET /v1/state HTTP/2.0`",
        says: "not a request of HTTP/1.1",
        advice: "send HTTP/1.1, with one `Content-Length`",
    },
    CodeWords {
        code: 404,
        name: "not found",
        meaning: "no such path",
        example: "`GET /nowhere`",
        says: "no such path",
        advice: "look at the routes in docs/operating.md",
    },
    CodeWords {
        code: 405,
        name: "method not allowed",
        meaning: "a path that has other methods",
        example: "`PATCH /v1/state`",
        says: "the path has other methods",
        advice: "look at the routes in docs/operating.md",
    },
    CodeWords {
        code: 411,
        name: "length required",
        meaning: "a `PUT` or a `POST` without `Content-Length`",
        example: "`POST /v1/authorize` without that field",
        says: "a body needs its length",
        advice: "send `Content-Length`",
    },
    CodeWords {
        code: 413,
        name: "payload too large",
        meaning: "a body of over 8,388,608 bytes",
        example: "`Content-Length: 8388609`",
        says: "the body is too large",
        advice: "send less at once",
    },
    CodeWords {
        code: 501,
        name: "not implemented",
        meaning: "a field `Transfer-Encoding`",
        example: "`Transfer-Encoding: chunked`",
        says: "transfer encodings are not supported",
        advice: "send `Content-Length` in place of chunks",
    },
];

/// Returns the rows of the group that would contain this code.
fn rows_of(code: u16) -> &'static [CodeWords<&'static str>]
    ensures { map texts_of result.now ≡ rows_of_group code }
{
    if code < 10 {
        return &ANY_CALL;
    }
    if code < 20 {
        return &POLICIES;
    }
    if code < 30 {
        return &SCHEMAS;
    }
    if code < 40 {
        return &ENTITIES;
    }
    if code < 50 {
        return &TYPES;
    }
    if code < 60 {
        return &MESSAGES;
    }
    if code < 100 {
        return &COMMANDS;
    }
    &HTTP
}

/// Returns the first of `rows` that has this code, or `None`.
fn row_with_code(
    rows: &'static [CodeWords<&'static str>],
    code: u16,
) -> Option<&'static CodeWords<&'static str>>
    ensures { option_map (λ words. words.now) result ≡ find (λ words. words.code == code) rows.now }
{
    for words in rows {
        if words.code == code {
            return Some(words);
        }
    }
    None
}

/// Returns the texts on a code, or `None` if no error has this code. Does not allocate.
pub fn words_of(code: u16) -> Option<&'static CodeWords<&'static str>>
    ensures found { option_map (λ words. texts_of words.now) result ≡ words_on code }
    ensures known { is_some result ≡ is_code code }
    ensures clean { IfSome result (λ words. is_clean (texts_of words.now) ≡ true) }
{
    row_with_code(rows_of(code), code)
}
