//! Envelopes and menus as lines.
//!
//! A version is told as `10.1`, an execution as `10.1/0`, and a write of it as `10.1/0/1`. Tables 0 to 2 are x, y and z.

use crate::checks::MEMORY;
use morty_base::{Exec, Key, Version, Wid};
use msg::{BaseEntry, Body, Content, Envelope, Kept, Read, Write};
use net_core::Menu;
use std::alloc::Global;
use std::process::Abort;

fn push(rt: &impl Abort, text: &mut String, words: &str) {
    text.push_str(words).expect(rt, MEMORY);
}

fn push_version(rt: &impl Abort, text: &mut String, ver: Version) {
    write!(text, " {}.{}", ver.ts, ver.client).expect(rt, MEMORY);
}

fn push_exec(rt: &impl Abort, text: &mut String, exec: Exec) {
    let Version { ts, client } = exec.ver;
    write!(text, " {ts}.{client}/{}", exec.eid).expect(rt, MEMORY);
}

fn push_wid(rt: &impl Abort, text: &mut String, wid: Wid) {
    let Version { ts, client } = wid.ver;
    write!(text, " {ts}.{client}/{}/{}", wid.eid, wid.seq).expect(rt, MEMORY);
}

fn push_key(rt: &impl Abort, text: &mut String, key: Key) {
    let table = match key.table {
        0 => "x",
        1 => "y",
        2 => "z",
        _ => "other",
    };
    write!(text, " {table}[{}]", key.index).expect(rt, MEMORY);
}

fn push_value(rt: &impl Abort, text: &mut String, value: i64) {
    write!(text, " {value}").expect(rt, MEMORY);
}

// A key, the name of a write of it, and its value.
fn push_named(rt: &impl Abort, text: &mut String, key: Key, wid: Wid, value: i64) {
    push_key(rt, text, key);
    push_wid(rt, text, wid);
    push_value(rt, text, value);
}

fn push_reads(rt: &impl Abort, text: &mut String, reads: &[Read]) {
    push(rt, text, " reads {");
    for read in reads {
        push_named(rt, text, read.key, read.wid, read.value);
    }
    push(rt, text, " }");
}

fn push_writes(rt: &impl Abort, text: &mut String, writes: &[Write]) {
    push(rt, text, " writes {");
    for write in writes {
        push_key(rt, text, write.key);
        push_value(rt, text, write.value);
    }
    push(rt, text, " }");
}

fn push_printed(rt: &impl Abort, text: &mut String, out: &[i64]) {
    push(rt, text, " out {");
    for value in out {
        push_value(rt, text, *value);
    }
    push(rt, text, " }");
}

fn push_base(rt: &impl Abort, text: &mut String, base: &[BaseEntry]) {
    push(rt, text, " base {");
    for entry in base {
        push_named(rt, text, entry.key, entry.wid, entry.value);
    }
    push(rt, text, " }");
}

fn push_content(rt: &impl Abort, text: &mut String, content: &Content) {
    push_reads(rt, text, content.reads.as_slice());
    push_writes(rt, text, content.writes.as_slice());
    push_printed(rt, text, content.out.as_slice());
    write!(text, " {:?}", content.ending).expect(rt, MEMORY);
}

// Nothing, where there is none.
fn push_content_if(rt: &impl Abort, text: &mut String, content: &Option<Content>) {
    if let Some(content) = content {
        push_content(rt, text, content);
    }
}

fn push_kept(rt: &impl Abort, text: &mut String, kept: &[Kept]) {
    push(rt, text, " {");
    for kept in kept {
        push_exec(rt, text, kept.exec);
        push_content(rt, text, &kept.content);
    }
    push(rt, text, " }");
}

// What a client says of an execution.
fn push_said(rt: &impl Abort, text: &mut String, body: &Body) {
    match body {
        Body::Get { exec, key } => {
            push(rt, text, " get");
            push_exec(rt, text, *exec);
            push_key(rt, text, *key);
        }
        Body::Puts { exec, writes } => {
            push(rt, text, " puts");
            push_exec(rt, text, *exec);
            push_writes(rt, text, writes.as_slice());
        }
        Body::Prepare { exec, content } => {
            push(rt, text, " prepare");
            push_exec(rt, text, *exec);
            push_content(rt, text, content);
        }
        Body::Finalize {
            exec,
            view,
            choice,
            content,
        } => {
            push(rt, text, " finalize");
            push_exec(rt, text, *exec);
            write!(text, " view {view} {choice:?}").expect(rt, MEMORY);
            push_content_if(rt, text, content);
        }
        Body::Decide {
            exec,
            choice,
            content,
        } => {
            push(rt, text, " decide");
            push_exec(rt, text, *exec);
            write!(text, " {choice:?}").expect(rt, MEMORY);
            push_content_if(rt, text, content);
        }
        _ => (),
    }
}

// What a replica answers.
fn push_answer(rt: &impl Abort, text: &mut String, body: &Body) {
    match body {
        Body::Note {
            ver,
            key,
            wid,
            value,
            sure,
            gone,
        } => {
            push(rt, text, " note");
            push_version(rt, text, *ver);
            push_named(rt, text, *key, *wid, *value);
            push(rt, text, if *sure { " sure" } else { " unsure" });
            if let Some(wid) = gone {
                push(rt, text, " gone");
                push_wid(rt, text, *wid);
            }
        }
        Body::Vote { exec, vote } => {
            push(rt, text, " vote");
            push_exec(rt, text, *exec);
            write!(text, " {vote:?}").expect(rt, MEMORY);
        }
        Body::Accepted { exec, view } => {
            push(rt, text, " accepted");
            push_exec(rt, text, *exec);
            write!(text, " view {view}").expect(rt, MEMORY);
        }
        Body::Told {
            exec,
            view,
            vote,
            accepted,
            decided,
            content,
        } => {
            push(rt, text, " told");
            push_exec(rt, text, *exec);
            write!(text, " view {view} {vote:?} {accepted:?} {decided:?}").expect(rt, MEMORY);
            push_content_if(rt, text, content);
        }
        Body::Fenced {
            w,
            base,
            committed,
            voted,
        } => {
            push(rt, text, " fenced");
            push_version(rt, text, *w);
            push_base(rt, text, base.as_slice());
            push(rt, text, " committed");
            push_kept(rt, text, committed.as_slice());
            push(rt, text, " voted");
            push_kept(rt, text, voted.as_slice());
        }
        Body::TooOld { ver, w } => {
            push(rt, text, " too old");
            push_version(rt, text, *ver);
            push_version(rt, text, *w);
        }
        _ => (),
    }
}

// What a warden alone says.
fn push_asked(rt: &impl Abort, text: &mut String, body: &Body) {
    match body {
        Body::Ask { exec, view } => {
            push(rt, text, " ask");
            push_exec(rt, text, *exec);
            write!(text, " view {view}").expect(rt, MEMORY);
        }
        Body::Fence { w } => {
            push(rt, text, " fence");
            push_version(rt, text, *w);
        }
        Body::Drop { w, base } => {
            push(rt, text, " drop");
            push_version(rt, text, *w);
            push_base(rt, text, base.as_slice());
        }
        _ => (),
    }
}

/// The envelope of this number: its sender, its receiver, and what it says.
pub(crate) fn envelope_line(rt: &impl Abort, alloc: Global, number: u64, env: &Envelope) -> String {
    let line = format!(in alloc; "{number} {:?} > {:?}:", env.from, env.to);
    let mut text = line.expect(rt, MEMORY);
    push_said(rt, &mut text, &env.body);
    push_answer(rt, &mut text, &env.body);
    push_asked(rt, &mut text, &env.body);
    text
}

/// What a link is shown.
pub(crate) fn menu_line(rt: &impl Abort, alloc: Global, menu: &Menu<'_>) -> String {
    let line = format!(in alloc;
        "{} events, fresh {:?}, old {:?}",
        menu.now, menu.fresh, menu.old
    );
    let mut text = line.expect(rt, MEMORY);
    if menu.go {
        push(rt, &mut text, ", go");
    }
    if menu.hurry {
        push(rt, &mut text, ", hurry");
    }
    if let Some(exec) = menu.stuck {
        push(rt, &mut text, ", stuck");
        push_exec(rt, &mut text, exec);
    }
    text
}
