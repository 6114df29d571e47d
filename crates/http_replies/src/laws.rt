//! Theorems about replies. The functions are no-ops.
ghost use Rattle.std.specs.Prelude.{◌≡◌, ◌++◌, ℕ, Bool, None, codes, decimal, if◌then◌else◌};
ghost use Rattle.http_streams.specs.ReplyText.{error_line};
ghost use Rattle.site.specs.stamped_store.SiteNames.{IsSiteName};
ghost use Rattle.site.specs.stamped_store.declared.entry.Stamp.{Stamp};
ghost use Rattle.http_replies.specs.Lines.{fault_line, put_line, stamp_line};

/// Proves that an error that is reported by its status has the same line whether the stream or the service rejects the
/// request. No-op.
pub fn errors_have_one_line()
    ensures { (n : ℕ) → fault_line n None None ≡ error_line n }
{}

/// Proves that the line of a stamp, and that of a put of a policy, have the bytes of the site's name between quotes: a
/// site name needs no escape. No-op.
pub fn stamps_have_plain_lines()
    ensures stamp { (s : Stamp) → IsSiteName s.site → stamp_line s
        ≡ codes "{\"count\":" ++ decimal s.count ++ codes ",\"site\":\"" ++ s.site ++ codes "\"}" }
    ensures put { (s : Stamp) (impossible : Bool) → IsSiteName s.site → put_line s impossible
        ≡ codes "{\"count\":" ++ decimal s.count ++ codes ",\"impossible\":"
        ++ (if impossible then codes "true" else codes "false") ++ codes ",\"site\":\"" ++ s.site ++ codes "\"}" }
{}
