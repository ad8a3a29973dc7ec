ghost use Rattle.std.specs.Prelude.{◌≡◌, IfOk, IsTrue};
ghost use Rattle.msg.specs.Body.{is_plain};

use crate::{Accept, BaseEntry, Body, Choice, Content, Envelope, Kept, Vote, Write};
use morty_base::{Exec, List, NoMemory, Version};
use std::alloc::Global;

impl Content {
    pub fn copy(&self, alloc: Global) -> Result<Content, NoMemory>
        ensures { IfOk result (λ c. c ≡ self.now) }
    {
        let reads = self.reads.copy(alloc)?;
        let writes = self.writes.copy(alloc)?;
        let out = self.out.copy(alloc)?;
        Ok(Content {
            reads,
            writes,
            out,
            ending: self.ending,
        })
    }
}

/// A copy of a content, if there is one.
pub fn copy_content(alloc: Global, content: &Option<Content>) -> Result<Option<Content>, NoMemory>
    ensures { IfOk result (λ c. c ≡ content.now) }
{
    match content {
        None => Ok(None),
        Some(content) => {
            let copy = content.copy(alloc)?;
            Ok(Some(copy))
        }
    }
}

impl Kept {
    pub fn copy(&self, alloc: Global) -> Result<Kept, NoMemory>
        ensures { IfOk result (λ k. k ≡ self.now) }
    {
        let content = self.content.copy(alloc)?;
        Ok(Kept {
            exec: self.exec,
            content,
        })
    }
}

/// A copy of each item, in order.
pub fn copy_kept(alloc: Global, kept: &[Kept]) -> Result<List<Kept>, NoMemory>
    ensures { IfOk result (λ l. l ≡ kept.now) }
{
    let mut copied = List::new(alloc);
    for item in kept {
        let copy = item.copy(alloc)?;
        copied.push(copy)?;
    }
    Ok(copied)
}

fn copy_puts(alloc: Global, exec: Exec, writes: &List<Write>) -> Result<Body, NoMemory>
    ensures { IfOk result (λ b. b ≡ Body.Puts exec writes.now) }
{
    let writes = writes.copy(alloc)?;
    Ok(Body::Puts { exec, writes })
}

fn copy_prepare(alloc: Global, exec: Exec, content: &Content) -> Result<Body, NoMemory>
    ensures { IfOk result (λ b. b ≡ Body.Prepare exec content.now) }
{
    let content = content.copy(alloc)?;
    Ok(Body::Prepare { exec, content })
}

fn copy_finalize(
    alloc: Global,
    exec: Exec,
    view: u32,
    choice: Choice,
    content: &Option<Content>,
) -> Result<Body, NoMemory>
    ensures { IfOk result (λ b. b ≡ Body.Finalize exec view choice content.now) }
{
    let content = copy_content(alloc, content)?;
    Ok(Body::Finalize {
        exec,
        view,
        choice,
        content,
    })
}

fn copy_decide(
    alloc: Global,
    exec: Exec,
    choice: Choice,
    content: &Option<Content>,
) -> Result<Body, NoMemory>
    ensures { IfOk result (λ b. b ≡ Body.Decide exec choice content.now) }
{
    let content = copy_content(alloc, content)?;
    Ok(Body::Decide {
        exec,
        choice,
        content,
    })
}

fn copy_told(
    alloc: Global,
    exec: Exec,
    view: u32,
    vote: Option<Vote>,
    accepted: Option<Accept>,
    decided: Option<Choice>,
    content: &Option<Content>,
) -> Result<Body, NoMemory>
    ensures { IfOk result (λ b. b ≡ Body.Told exec view vote accepted decided content.now) }
{
    let content = copy_content(alloc, content)?;
    Ok(Body::Told {
        exec,
        view,
        vote,
        accepted,
        decided,
        content,
    })
}

fn copy_fenced(
    alloc: Global,
    w: Version,
    base: &List<BaseEntry>,
    committed: &List<Kept>,
    voted: &List<Kept>,
) -> Result<Body, NoMemory>
    ensures { IfOk result (λ b. b ≡ Body.Fenced w base.now committed.now voted.now) }
{
    let base = base.copy(alloc)?;
    let committed = copy_kept(alloc, committed.as_slice())?;
    let voted = copy_kept(alloc, voted.as_slice())?;
    Ok(Body::Fenced {
        w,
        base,
        committed,
        voted,
    })
}

fn copy_drop(alloc: Global, w: Version, base: &List<BaseEntry>) -> Result<Body, NoMemory>
    ensures { IfOk result (λ b. b ≡ Body.Drop w base.now) }
{
    let base = base.copy(alloc)?;
    Ok(Body::Drop { w, base })
}

impl Body {
    /// A value equal to this one, with memory of its own.
    pub fn copy(&self, alloc: Global) -> Result<Body, NoMemory>
        ensures { IfOk result (λ b. b ≡ self.now) }
    {
        match self {
            Body::Puts { exec, writes } => copy_puts(alloc, *exec, writes),
            Body::Prepare { exec, content } => copy_prepare(alloc, *exec, content),
            Body::Finalize {
                exec,
                view,
                choice,
                content,
            } => copy_finalize(alloc, *exec, *view, *choice, content),
            Body::Decide {
                exec,
                choice,
                content,
            } => copy_decide(alloc, *exec, *choice, content),
            Body::Told {
                exec,
                view,
                vote,
                accepted,
                decided,
                content,
            } => copy_told(alloc, *exec, *view, *vote, *accepted, *decided, content),
            Body::Fenced {
                w,
                base,
                committed,
                voted,
            } => copy_fenced(alloc, *w, base, committed, voted),
            Body::Drop { w, base } => copy_drop(alloc, *w, base),
            _ => Ok(self.copy_plain()),
        }
    }

    // A copy of a body that takes no memory.
    fn copy_plain(&self) -> Body
        requires { IsTrue (is_plain self.now) }
        ensures { result ≡ self.now }
    {
        match *self {
            Body::Get { exec, key } => Body::Get { exec, key },
            Body::Note {
                ver,
                key,
                wid,
                value,
                sure,
                gone,
            } => Body::Note {
                ver,
                key,
                wid,
                value,
                sure,
                gone,
            },
            Body::Vote { exec, vote } => Body::Vote { exec, vote },
            Body::Accepted { exec, view } => Body::Accepted { exec, view },
            Body::Ask { exec, view } => Body::Ask { exec, view },
            Body::Fence { w } => Body::Fence { w },
            Body::TooOld { ver, w } => Body::TooOld { ver, w },
            _ => unreachable!(),
        }
    }
}

impl Envelope {
    /// A value equal to this one, with memory of its own.
    pub fn copy(&self, alloc: Global) -> Result<Envelope, NoMemory>
        ensures { IfOk result (λ e. e ≡ self.now) }
    {
        let body = self.body.copy(alloc)?;
        Ok(Envelope {
            from: self.from,
            to: self.to,
            body,
        })
    }
}
