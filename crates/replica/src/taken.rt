//! What a replica takes: what its rules speak of, with the content that it needs.

ghost use Rattle.std.specs.Prelude.{◌≡◌, ◌&&◌, not};
ghost use Rattle.protocol.specs.Replica.Taken.{version_of as version_of_body, lacks_content as lacks_its_content, is_above as is_above_version};

use morty_base::{Version, is_before};
use msg::{Body, Choice};

/// The version that a body is about, where a replica has a rule for it.
fn version_of(body: &Body) -> Option<Version>
    ensures { result ≡ version_of_body body.now }
{
    match body {
        Body::Get { exec, .. }
        | Body::Puts { exec, .. }
        | Body::Prepare { exec, .. }
        | Body::Finalize { exec, .. }
        | Body::Decide { exec, .. }
        | Body::Ask { exec, .. } => Some(exec.ver),
        Body::Fence { w } | Body::Drop { w, .. } => Some(*w),
        _ => None,
    }
}

/// A Finalize or Decide of Commit without its content changes nothing.
fn lacks_content(body: &Body) -> bool
    ensures { result ≡ lacks_its_content body.now }
{
    match body {
        Body::Finalize {
            choice: Choice::Commit,
            content: None,
            ..
        }
        | Body::Decide {
            choice: Choice::Commit,
            content: None,
            ..
        } => true,
        _ => false,
    }
}

/// There is a version, and it is above the dropped one.
fn is_above(dropped: Version, ver: Option<Version>) -> bool
    ensures { result ≡ is_above_version dropped ver }
{
    match ver {
        None => false,
        Some(ver) => is_before(dropped, ver),
    }
}

/// Whether a replica that dropped this version takes a body.
pub(crate) fn takes(dropped: Version, body: &Body) -> bool
    ensures { result ≡ (is_above_version dropped (version_of_body body.now) && not (lacks_its_content body.now)) }
{
    is_above(dropped, version_of(body)) && !lacks_content(body)
}
