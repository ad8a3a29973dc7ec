//! The fields of each kind of body.

ghost use Rattle.wire.specs.Outcome.{Adds};
ghost use Rattle.wire.specs.Bodies as bodies;
ghost use Rattle.wire.specs.declared.head.Kind.TheVariants as kinds;

use crate::writing::codes::{put_decided, put_flag, put_told_vote, put_vote};
use crate::writing::contents::{
    put_base, put_chosen, put_content, put_kept, put_optional_accept, put_optional_wid, put_writes,
};
use crate::writing::names::{put_exec, put_key, put_version, put_view, put_wid};
use crate::writing::numbers::put_i64;
use bytes::BytesMut;
use morty_base::{Exec, Key, List, NoMemory, Version, Wid};
use msg::{Accept, BaseEntry, Body, Choice, Content, Kept, Vote, Write};

pub(crate) fn put_body(out: &mut BytesMut, body: &Body) -> Result<(), NoMemory>
    requires { bodies.BodyAdmits body.now }
    ensures { Adds (bodies.fields (bodies.parts body.now).0) (bodies.parts body.now).1 result out.old.items out.new.items }
{
    match body {
        Body::Get { exec, key } => put_get(out, *exec, *key),
        Body::Note {
            ver,
            key,
            wid,
            value,
            sure,
            gone,
        } => put_note(out, *ver, *key, *wid, *value, *sure, *gone),
        Body::Puts { exec, writes } => put_puts(out, *exec, writes),
        Body::Prepare { exec, content } => put_prepare(out, *exec, content),
        Body::Vote { exec, vote } => put_vote_body(out, *exec, *vote),
        Body::Finalize {
            exec,
            view,
            choice: _,
            content,
        } => put_finalize(out, *exec, *view, content),
        Body::Accepted { exec, view } => put_accepted(out, *exec, *view),
        Body::Decide {
            exec,
            choice: _,
            content,
        } => put_decide(out, *exec, content),
        Body::Ask { exec, view } => put_ask(out, *exec, *view),
        Body::Told {
            exec,
            view,
            vote,
            accepted,
            decided,
            content,
        } => { put_told(out, *exec, *view, *vote, *accepted, *decided, content) }
        Body::Fence { w } => put_fence(out, *w),
        Body::Fenced {
            w,
            base,
            committed,
            voted,
        } => put_fenced(out, *w, base, committed, voted),
        Body::Drop { w, base } => put_drop(out, *w, base),
        Body::TooOld { ver, w } => put_too_old(out, *ver, *w),
    }
}

#[tactic(auto, unfolding(crate::specs::Bodies::fields))]
fn put_get(out: &mut BytesMut, exec: Exec, key: Key) -> Result<(), NoMemory>
    ensures { Adds (bodies.fields kinds.Get) (exec, key) result out.old.items out.new.items }
{
    put_exec(out, exec)?;
    put_key(out, key)
}

#[tactic(auto, unfolding(crate::specs::Bodies::fields))]
fn put_note(
    out: &mut BytesMut,
    ver: Version,
    key: Key,
    wid: Wid,
    value: i64,
    sure: bool,
    gone: Option<Wid>,
) -> Result<(), NoMemory>
    ensures { Adds (bodies.fields kinds.Note) (ver, (key, (wid, (value, (sure, gone))))) result out.old.items out.new.items }
{
    put_version(out, ver)?;
    put_key(out, key)?;
    put_wid(out, wid)?;
    put_i64(out, value)?;
    put_flag(out, sure)?;
    put_optional_wid(out, gone)
}

#[tactic(auto, unfolding(crate::specs::Bodies::fields))]
fn put_puts(out: &mut BytesMut, exec: Exec, writes: &List<Write>) -> Result<(), NoMemory>
    requires { (bodies.fields kinds.Puts).Admits (exec, writes.now) }
    ensures { Adds (bodies.fields kinds.Puts) (exec, writes.now) result out.old.items out.new.items }
{
    put_exec(out, exec)?;
    put_writes(out, writes)
}

#[tactic(auto, unfolding(crate::specs::Bodies::fields))]
fn put_prepare(out: &mut BytesMut, exec: Exec, content: &Content) -> Result<(), NoMemory>
    requires { (bodies.fields kinds.Prepare).Admits (exec, content.now) }
    ensures { Adds (bodies.fields kinds.Prepare) (exec, content.now) result out.old.items out.new.items }
{
    put_exec(out, exec)?;
    put_content(out, content)
}

#[tactic(auto, unfolding(crate::specs::Bodies::fields))]
fn put_vote_body(out: &mut BytesMut, exec: Exec, vote: Vote) -> Result<(), NoMemory>
    ensures { Adds (bodies.fields kinds.Vote) (exec, vote) result out.old.items out.new.items }
{
    put_exec(out, exec)?;
    put_vote(out, vote)
}

#[tactic(auto, unfolding(crate::specs::Bodies::fields))]
fn put_finalize(
    out: &mut BytesMut,
    exec: Exec,
    view: u32,
    content: &Option<Content>,
) -> Result<(), NoMemory>
    requires { (bodies.fields kinds.Finalize).Admits (exec, (view, content.now)) }
    ensures { Adds (bodies.fields kinds.Finalize) (exec, (view, content.now)) result out.old.items out.new.items }
{
    put_exec(out, exec)?;
    put_view(out, view)?;
    put_chosen(out, content)
}

#[tactic(auto, unfolding(crate::specs::Bodies::fields))]
fn put_accepted(out: &mut BytesMut, exec: Exec, view: u32) -> Result<(), NoMemory>
    ensures { Adds (bodies.fields kinds.Accepted) (exec, view) result out.old.items out.new.items }
{
    put_exec(out, exec)?;
    put_view(out, view)
}

#[tactic(auto, unfolding(crate::specs::Bodies::fields))]
fn put_decide(out: &mut BytesMut, exec: Exec, content: &Option<Content>) -> Result<(), NoMemory>
    requires { (bodies.fields kinds.Decide).Admits (exec, content.now) }
    ensures { Adds (bodies.fields kinds.Decide) (exec, content.now) result out.old.items out.new.items }
{
    put_exec(out, exec)?;
    put_chosen(out, content)
}

#[tactic(auto, unfolding(crate::specs::Bodies::fields))]
fn put_ask(out: &mut BytesMut, exec: Exec, view: u32) -> Result<(), NoMemory>
    ensures { Adds (bodies.fields kinds.Ask) (exec, view) result out.old.items out.new.items }
{
    put_exec(out, exec)?;
    put_view(out, view)
}

#[tactic(auto, unfolding(crate::specs::Bodies::fields))]
fn put_told(
    out: &mut BytesMut,
    exec: Exec,
    view: u32,
    vote: Option<Vote>,
    accepted: Option<Accept>,
    decided: Option<Choice>,
    content: &Option<Content>,
) -> Result<(), NoMemory>
    requires { (bodies.fields kinds.Told).Admits (exec, (view, (vote, (accepted, (decided, content.now))))) }
    ensures { Adds (bodies.fields kinds.Told) (exec, (view, (vote, (accepted, (decided, content.now))))) result out.old.items out.new.items }
{
    put_exec(out, exec)?;
    put_view(out, view)?;
    put_told_vote(out, vote)?;
    put_optional_accept(out, accepted)?;
    put_decided(out, decided)?;
    put_chosen(out, content)
}

#[tactic(auto, unfolding(crate::specs::Bodies::fields))]
fn put_fence(out: &mut BytesMut, w: Version) -> Result<(), NoMemory>
    ensures { Adds (bodies.fields kinds.Fence) (w) result out.old.items out.new.items }
{
    put_version(out, w)
}

#[tactic(auto, unfolding(crate::specs::Bodies::fields))]
fn put_fenced(
    out: &mut BytesMut,
    w: Version,
    base: &List<BaseEntry>,
    committed: &List<Kept>,
    voted: &List<Kept>,
) -> Result<(), NoMemory>
    requires { (bodies.fields kinds.Fenced).Admits (w, (base.now, (committed.now, voted.now))) }
    ensures { Adds (bodies.fields kinds.Fenced) (w, (base.now, (committed.now, voted.now))) result out.old.items out.new.items }
{
    put_version(out, w)?;
    put_base(out, base)?;
    put_kept(out, committed)?;
    put_kept(out, voted)
}

#[tactic(auto, unfolding(crate::specs::Bodies::fields))]
fn put_drop(out: &mut BytesMut, w: Version, base: &List<BaseEntry>) -> Result<(), NoMemory>
    requires { (bodies.fields kinds.Drop).Admits (w, base.now) }
    ensures { Adds (bodies.fields kinds.Drop) (w, base.now) result out.old.items out.new.items }
{
    put_version(out, w)?;
    put_base(out, base)
}

#[tactic(auto, unfolding(crate::specs::Bodies::fields))]
fn put_too_old(out: &mut BytesMut, ver: Version, w: Version) -> Result<(), NoMemory>
    ensures { Adds (bodies.fields kinds.TooOld) (ver, w) result out.old.items out.new.items }
{
    put_version(out, ver)?;
    put_version(out, w)
}
