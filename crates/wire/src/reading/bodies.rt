//! The fields of each kind of body.

ghost use Rattle.std.specs.Prelude.{◌≡◌};
ghost use Rattle.wire.specs.Outcome.{Gives};
ghost use Rattle.wire.specs.Bodies as bodies;
ghost use Rattle.wire.specs.declared.head.Kind.TheVariants as kinds;

use crate::fault::FrameFault;
use crate::head::Kind;
use crate::reading::codes::{take_decided, take_flag, take_told_vote, take_vote};
use crate::reading::contents::{
    take_base, take_chosen, take_content, take_kept, take_optional_accept, take_optional_wid,
    take_writes,
};
use crate::reading::names::{take_exec, take_key, take_version, take_view, take_wid};
use crate::reading::numbers::take_i64;
use msg::{Body, Choice, Content};
use std::alloc::Global;

pub(crate) fn take_body(
    alloc: Global,
    kind: Kind,
    bytes: &[u8],
) -> Result<(Body, &[u8]), FrameFault>
    ensures { Gives (λ x. (x.0, x.1.now)) result (bodies.body_at kind bytes.now) }
{
    match kind {
        Kind::Get => take_get(bytes),
        Kind::Note => take_note(bytes),
        Kind::Puts => take_puts(alloc, bytes),
        Kind::Prepare => take_prepare(alloc, bytes),
        Kind::Vote => take_vote_body(bytes),
        Kind::Finalize => take_finalize(alloc, bytes),
        Kind::Accepted => take_accepted(bytes),
        Kind::Decide => take_decide(alloc, bytes),
        Kind::Ask => take_ask(bytes),
        Kind::Told => take_told(alloc, bytes),
        Kind::Fence => take_fence(bytes),
        Kind::Fenced => take_fenced(alloc, bytes),
        Kind::Drop => take_drop(alloc, bytes),
        Kind::TooOld => take_too_old(bytes),
    }
}

#[tactic(auto, unfolding(crate::specs::Bodies::fields))]
fn take_get(bytes: &[u8]) -> Result<(Body, &[u8]), FrameFault>
    ensures { Gives (λ x. (x.0, x.1.now)) result (bodies.body_at kinds.Get bytes.now) }
{
    let (exec, rest) = take_exec(bytes)?;
    let (key, rest) = take_key(rest)?;
    Ok((Body::Get { exec, key }, rest))
}

#[tactic(auto, unfolding(crate::specs::Bodies::fields))]
fn take_note(bytes: &[u8]) -> Result<(Body, &[u8]), FrameFault>
    ensures { Gives (λ x. (x.0, x.1.now)) result (bodies.body_at kinds.Note bytes.now) }
{
    let (ver, rest) = take_version(bytes)?;
    let (key, rest) = take_key(rest)?;
    let (wid, rest) = take_wid(rest)?;
    let (value, rest) = take_i64(rest)?;
    let (sure, rest) = take_flag(rest)?;
    let (gone, rest) = take_optional_wid(rest)?;
    Ok((
        Body::Note {
            ver,
            key,
            wid,
            value,
            sure,
            gone,
        },
        rest,
    ))
}

#[tactic(auto, unfolding(crate::specs::Bodies::fields))]
fn take_puts(alloc: Global, bytes: &[u8]) -> Result<(Body, &[u8]), FrameFault>
    ensures { Gives (λ x. (x.0, x.1.now)) result (bodies.body_at kinds.Puts bytes.now) }
{
    let (exec, rest) = take_exec(bytes)?;
    let (writes, rest) = take_writes(alloc, rest)?;
    Ok((Body::Puts { exec, writes }, rest))
}

#[tactic(auto, unfolding(crate::specs::Bodies::fields))]
fn take_prepare(alloc: Global, bytes: &[u8]) -> Result<(Body, &[u8]), FrameFault>
    ensures { Gives (λ x. (x.0, x.1.now)) result (bodies.body_at kinds.Prepare bytes.now) }
{
    let (exec, rest) = take_exec(bytes)?;
    let (content, rest) = take_content(alloc, rest)?;
    Ok((Body::Prepare { exec, content }, rest))
}

#[tactic(auto, unfolding(crate::specs::Bodies::fields))]
fn take_vote_body(bytes: &[u8]) -> Result<(Body, &[u8]), FrameFault>
    ensures { Gives (λ x. (x.0, x.1.now)) result (bodies.body_at kinds.Vote bytes.now) }
{
    let (exec, rest) = take_exec(bytes)?;
    let (vote, rest) = take_vote(rest)?;
    Ok((Body::Vote { exec, vote }, rest))
}

#[tactic(auto, unfolding(crate::specs::Bodies::fields))]
fn take_finalize(alloc: Global, bytes: &[u8]) -> Result<(Body, &[u8]), FrameFault>
    ensures { Gives (λ x. (x.0, x.1.now)) result (bodies.body_at kinds.Finalize bytes.now) }
{
    let (exec, rest) = take_exec(bytes)?;
    let (view, rest) = take_view(rest)?;
    let (content, rest) = take_chosen(alloc, rest)?;
    let choice = choice_of(&content);
    Ok((
        Body::Finalize {
            exec,
            view,
            choice,
            content,
        },
        rest,
    ))
}

fn choice_of(content: &Option<Content>) -> Choice
    ensures { result ≡ bodies.choice_of content.now }
{
    match content {
        None => Choice::Abandon,
        Some(_) => Choice::Commit,
    }
}

#[tactic(auto, unfolding(crate::specs::Bodies::fields))]
fn take_accepted(bytes: &[u8]) -> Result<(Body, &[u8]), FrameFault>
    ensures { Gives (λ x. (x.0, x.1.now)) result (bodies.body_at kinds.Accepted bytes.now) }
{
    let (exec, rest) = take_exec(bytes)?;
    let (view, rest) = take_view(rest)?;
    Ok((Body::Accepted { exec, view }, rest))
}

#[tactic(auto, unfolding(crate::specs::Bodies::fields))]
fn take_decide(alloc: Global, bytes: &[u8]) -> Result<(Body, &[u8]), FrameFault>
    ensures { Gives (λ x. (x.0, x.1.now)) result (bodies.body_at kinds.Decide bytes.now) }
{
    let (exec, rest) = take_exec(bytes)?;
    let (content, rest) = take_chosen(alloc, rest)?;
    let choice = choice_of(&content);
    Ok((
        Body::Decide {
            exec,
            choice,
            content,
        },
        rest,
    ))
}

#[tactic(auto, unfolding(crate::specs::Bodies::fields))]
fn take_ask(bytes: &[u8]) -> Result<(Body, &[u8]), FrameFault>
    ensures { Gives (λ x. (x.0, x.1.now)) result (bodies.body_at kinds.Ask bytes.now) }
{
    let (exec, rest) = take_exec(bytes)?;
    let (view, rest) = take_view(rest)?;
    Ok((Body::Ask { exec, view }, rest))
}

#[tactic(auto, unfolding(crate::specs::Bodies::fields))]
fn take_told(alloc: Global, bytes: &[u8]) -> Result<(Body, &[u8]), FrameFault>
    ensures { Gives (λ x. (x.0, x.1.now)) result (bodies.body_at kinds.Told bytes.now) }
{
    let (exec, rest) = take_exec(bytes)?;
    let (view, rest) = take_view(rest)?;
    let (vote, rest) = take_told_vote(rest)?;
    let (accepted, rest) = take_optional_accept(rest)?;
    let (decided, rest) = take_decided(rest)?;
    let (content, rest) = take_chosen(alloc, rest)?;
    Ok((
        Body::Told {
            exec,
            view,
            vote,
            accepted,
            decided,
            content,
        },
        rest,
    ))
}

#[tactic(auto, unfolding(crate::specs::Bodies::fields))]
fn take_fence(bytes: &[u8]) -> Result<(Body, &[u8]), FrameFault>
    ensures { Gives (λ x. (x.0, x.1.now)) result (bodies.body_at kinds.Fence bytes.now) }
{
    let (w, rest) = take_version(bytes)?;
    Ok((Body::Fence { w }, rest))
}

#[tactic(auto, unfolding(crate::specs::Bodies::fields))]
fn take_fenced(alloc: Global, bytes: &[u8]) -> Result<(Body, &[u8]), FrameFault>
    ensures { Gives (λ x. (x.0, x.1.now)) result (bodies.body_at kinds.Fenced bytes.now) }
{
    let (w, rest) = take_version(bytes)?;
    let (base, rest) = take_base(alloc, rest)?;
    let (committed, rest) = take_kept(alloc, rest)?;
    let (voted, rest) = take_kept(alloc, rest)?;
    Ok((
        Body::Fenced {
            w,
            base,
            committed,
            voted,
        },
        rest,
    ))
}

#[tactic(auto, unfolding(crate::specs::Bodies::fields))]
fn take_drop(alloc: Global, bytes: &[u8]) -> Result<(Body, &[u8]), FrameFault>
    ensures { Gives (λ x. (x.0, x.1.now)) result (bodies.body_at kinds.Drop bytes.now) }
{
    let (w, rest) = take_version(bytes)?;
    let (base, rest) = take_base(alloc, rest)?;
    Ok((Body::Drop { w, base }, rest))
}

#[tactic(auto, unfolding(crate::specs::Bodies::fields))]
fn take_too_old(bytes: &[u8]) -> Result<(Body, &[u8]), FrameFault>
    ensures { Gives (λ x. (x.0, x.1.now)) result (bodies.body_at kinds.TooOld bytes.now) }
{
    let (ver, rest) = take_version(bytes)?;
    let (w, rest) = take_version(rest)?;
    Ok((Body::TooOld { ver, w }, rest))
}
