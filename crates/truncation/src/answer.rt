ghost use Rattle.std.specs.Prelude.{◌≡◌, ◌==◌};
ghost use Rattle.std.specs.List.{list_any};
ghost use Rattle.morty_base.specs.Names.{same_exec};
ghost use Rattle.protocol.specs.Warden.Truncation.{named_committed};

use morty_base::{Exec, List, is_same_exec};
use msg::{BaseEntry, Kept};
use std::marker::Model;

/// A Fenced that counts: what a replica dropped before, and what it knows at or below the fence.
#[derive(Drop)]
pub struct Answer {
    pub replica: u32,
    pub base: List<BaseEntry>,
    pub committed: List<Kept>,
    pub voted: List<Kept>,
}

impl Model for Answer {
    ghost use Rattle.protocol.specs.Warden.State.{FencedAnswer};

    ghost Value = { FencedAnswer };

    ghost view = { λ a. record { replica = a.replica; base = a.base; committed = a.committed; voted = a.voted } };
}

impl Answer {
    pub fn is_of(&self, replica: u32) -> bool
        ensures { result ≡ (self.now.replica == replica) }
    {
        self.replica == replica
    }

    fn names_committed(&self, x: Exec) -> bool
        ensures { result ≡ list_any (λ c. same_exec x c.exec) self.now.committed }
    {
        self.committed
            .as_slice()
            .iter()
            .any(|kept| is_same_exec(x, kept.exec))
    }
}

/// Whether some answer names an execution as committed.
pub fn is_named_committed(answers: &[Answer], x: Exec) -> bool
    ensures { result ≡ named_committed answers.now x }
{
    answers.iter().any(|answer| answer.names_committed(x))
}
