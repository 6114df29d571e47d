//! The parts of a target.
ghost use Rattle.std.specs.Prelude.{◌≡◌, option_map};
ghost use Rattle.http_service.specs.Routes.{path_of, segment_of};

/// The prefix of the path of a policy; the policy's id follows.
const POLICIES: &[u8] = b"/v1/policies/";

/// Returns the path of a target: all before its first question mark.
#[tactic(auto, unfolding(crate::specs::Routes::path_of))]
pub(crate) fn path_of(target: &[u8]) -> &[u8]
    ensures { result.now ≡ path_of target.now }
{
    for at in 0..target.len() {
        if target[at] == b'?' {
            return &target[..at];
        }
    }
    target
}

/// Returns the segment that names a policy, if the path is that of a policy.
#[tactic(auto, unfolding(crate::specs::Routes::segment_of, crate::specs::Routes::policies))]
pub(crate) fn segment_of(path: &[u8]) -> Option<&[u8]>
    ensures { option_map (λ s. s.now) result ≡ segment_of path.now }
{
    match path.strip_prefix(POLICIES) {
        Some(rest) if !rest.contains(&b'/') => Some(rest),
        _ => None,
    }
}
