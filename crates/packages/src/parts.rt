//! The parts of a version.
ghost use Rattle.std.specs.Prelude.{◌≡◌, ◌<◌, None, IfSome, length, nat_eq};
ghost use Rattle.std.specs.List.{position_from};
ghost use Rattle.package_rules.specs.Debian.{behind_hyphen, epoch, until_hyphen, without_epoch};
ghost use Rattle.packages.specs.Versions.{last_hyphen};

/// Splits a version into its epoch, which is empty where there is none, and what is behind it.
#[tactic(auto, using(crate::proofs::Splits::epoch_at, crate::proofs::Splits::rest_at, crate::proofs::Splits::no_epoch, crate::proofs::Splits::all_behind))]
pub(crate) fn split_epoch(text: &[u8]) -> (&[u8], &[u8])
    ensures epoch { result.0.now ≡ epoch text.now }
    ensures rest { result.1.now ≡ without_epoch text.now }
{
    match colon(text) {
        Some(place) => (&text[..place], &text[place + 1..]),
        None => (&text[..0], text),
    }
}

/// Splits a version without its epoch into the upstream version and the revision, which is empty
/// where there is none.
#[tactic(auto, using(crate::proofs::Splits::upstream_at, crate::proofs::Splits::revision_at, crate::proofs::Splits::no_revision, crate::proofs::Splits::all_upstream))]
pub(crate) fn split_revision(text: &[u8]) -> (&[u8], &[u8])
    ensures upstream { result.0.now ≡ until_hyphen text.now }
    ensures revision { result.1.now ≡ behind_hyphen text.now }
{
    match hyphen(text) {
        Some(place) => (&text[..place], &text[place + 1..]),
        None => (text, &text[..0]),
    }
}

/// Returns the place of the first colon.
fn colon(text: &[u8]) -> Option<usize>
    ensures place { result ≡ position_from (nat_eq 58) 0 text.now }
    ensures bound { IfSome result (λ place. place < length text.now) }
{
    for (place, byte) in text.iter().enumerate() {
        if *byte == b':' {
            return Some(place);
        }
    }
    None
}

/// Returns the place of the last hyphen.
fn hyphen(text: &[u8]) -> Option<usize>
    ensures place { result ≡ last_hyphen 0 None text.now }
    ensures bound { IfSome result (λ place. place < length text.now) }
{
    let mut last = None;
    for (place, byte) in text.iter().enumerate() {
        if *byte == b'-' {
            last = Some(place);
        }
    }
    last
}
