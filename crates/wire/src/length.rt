//! How long a frame is, so that its bytes are written once, where they stay.

ghost use Rattle.std.specs.Prelude.{◌≡◌, ◌+◌, ◌≤◌, IfSome, length};
ghost use Rattle.wire.specs.Field.{optional};
ghost use Rattle.wire.specs.Values as values;
ghost use Rattle.wire.specs.Values.{most_short};
ghost use Rattle.wire.specs.Bodies as bodies;
ghost use Rattle.wire.specs.Sendable.{IsShort, IsBase, IsKept, IsFit, MaySend};
ghost use Rattle.wire.specs.Lengths.{most_content, most_kept, most_body};
ghost use Rattle.wire.specs.Wire.{frame};

use morty_base::{List, Wid};
use msg::{Accept, BaseEntry, Body, Content, Envelope, Kept, Write};

// The wire version, the kind, and two nodes of two bytes each.
const HEAD_LEN: usize = 6;

const CODE_LEN: usize = 1;

const SHORT_COUNT_LEN: usize = 2;

const LONG_COUNT_LEN: usize = 4;

const VIEW_LEN: usize = 4;

const VALUE_LEN: usize = 8;

const KEY_LEN: usize = 10;

const VERSION_LEN: usize = 12;

const EXEC_LEN: usize = 16;

const WID_LEN: usize = 20;

const WRITE_LEN: usize = KEY_LEN + VALUE_LEN;

// The length of a read, and of an entry of a base.
const READ_LEN: usize = KEY_LEN + WID_LEN + VALUE_LEN;

/// The length of an envelope's frame.
#[tactic(auto, using(crate::proofs::Lengths::frame_length))]
pub(crate) fn frame_len(envelope: &Envelope) -> usize
    requires { MaySend envelope.now }
    ensures { result ≡ length (frame envelope.now) }
{
    HEAD_LEN + body_len(&envelope.body)
}

fn body_len(body: &Body) -> usize
    requires { IsFit body.now }
    ensures value { result ≡ length ((bodies.fields (bodies.parts body.now).0).frame (bodies.parts body.now).1) }
    ensures small { result ≤ most_body }
{
    match body {
        Body::Get { .. } => EXEC_LEN + KEY_LEN,
        Body::Note { gone, .. } => {
            VERSION_LEN + KEY_LEN + WID_LEN + VALUE_LEN + CODE_LEN + gone_len(*gone)
        }
        Body::Puts { writes, .. } => EXEC_LEN + writes_len(writes),
        Body::Prepare { content, .. } => EXEC_LEN + content_len(content),
        Body::Vote { .. } => EXEC_LEN + CODE_LEN,
        Body::Finalize { content, .. } => EXEC_LEN + VIEW_LEN + chosen_len(content),
        Body::Accepted { .. } => EXEC_LEN + VIEW_LEN,
        Body::Decide { content, .. } => EXEC_LEN + chosen_len(content),
        Body::Ask { .. } => EXEC_LEN + VIEW_LEN,
        Body::Told {
            accepted,
            content,
            ..
        } => { EXEC_LEN + VIEW_LEN + 2 * CODE_LEN + accepted_len(*accepted) + chosen_len(content) }
        Body::Fence { .. } => VERSION_LEN,
        Body::Fenced {
            base,
            committed,
            voted,
            ..
        } => { VERSION_LEN + base_len(base) + kept_len(committed) + kept_len(voted) }
        Body::Drop { base, .. } => VERSION_LEN + base_len(base),
        Body::TooOld { .. } => 2 * VERSION_LEN,
    }
}

#[tactic(auto, using(crate::proofs::Lengths::gone_length))]
fn gone_len(gone: Option<Wid>) -> usize
    ensures value { result ≡ length ((optional values.wid).frame gone) }
    ensures small { result ≤ 21 }
{
    match gone {
        None => CODE_LEN,
        Some(_) => CODE_LEN + WID_LEN,
    }
}

#[tactic(auto, using(crate::proofs::Lengths::pair_length))]
fn accepted_len(accepted: Option<Accept>) -> usize
    ensures value { result ≡ length ((optional values.accept).frame accepted) }
    ensures small { result ≤ 6 }
{
    match accepted {
        None => CODE_LEN,
        Some(_) => CODE_LEN + VIEW_LEN + CODE_LEN,
    }
}

#[tactic(auto, using(crate::proofs::Lengths::writes_length))]
fn writes_len(writes: &List<Write>) -> usize
    requires { length writes.now ≤ most_short }
    ensures value { result ≡ length (values.writes.frame writes.now) }
    ensures small { result ≤ most_content }
{
    SHORT_COUNT_LEN + WRITE_LEN * writes.len()
}

#[tactic(auto, using(crate::proofs::Lengths::content_length))]
fn content_len(content: &Content) -> usize
    requires { IsShort content.now }
    ensures value { result ≡ length (values.content.frame content.now) }
    ensures small { result ≤ most_content }
{
    let lists = READ_LEN * content.reads.len()
        + WRITE_LEN * content.writes.len()
        + VALUE_LEN * content.out.len();
    3 * SHORT_COUNT_LEN + lists + CODE_LEN
}

#[tactic(auto, unfolding(crate::specs::Values::chosen))]
fn chosen_len(content: &Option<Content>) -> usize
    requires { IfSome content.now IsShort }
    ensures value { result ≡ length (values.chosen.frame content.now) }
    ensures small { result ≤ most_content + 1 }
{
    match content {
        None => CODE_LEN,
        Some(content) => CODE_LEN + content_len(content),
    }
}

#[tactic(auto, using(crate::proofs::Lengths::base_length))]
fn base_len(base: &List<BaseEntry>) -> usize
    requires { IsBase base.now }
    ensures value { result ≡ length (values.base.frame base.now) }
    ensures small { result ≤ most_kept }
{
    LONG_COUNT_LEN + READ_LEN * base.len()
}

#[tactic(auto, unfolding(crate::specs::Values::kept, crate::specs::Field::u32))]
fn kept_len(kept: &List<Kept>) -> usize
    requires { IsKept kept.now }
    ensures value { result ≡ length (values.kept.frame kept.now) }
    ensures small { result ≤ most_kept }
{
    let entries = kept.as_slice();
    let mut len = LONG_COUNT_LEN;
    for entry in entries {
        len += EXEC_LEN + content_len(&entry.content);
    }
    len
}
