ghost use Rattle.std.specs.Prelude.{◌≡◌, IfOk};
ghost use Rattle.script_cli.specs.Due.{due_of, unrun};

use morty_base::{List, NoMemory};
use msg::Event;
use net_core::Link;
use std::alloc::Global;

/// What is to be written, with the status, the events and the links that go with it.
#[derive(Drop)]
pub struct Output<L: Drop> {
    pub status: u8,
    pub text: List<u8>,
    pub journal: Vec<Event>,
    pub links: Vec<L>,
}

/// A text with no run behind it.
pub(crate) fn unrun<L: Link>(alloc: Global, status: u8, text: List<u8>) -> Output<L>
    ensures { due_of L.state_of result ≡ unrun status text }
{
    Output {
        status,
        text,
        journal: Vec::new(alloc),
        links: Vec::new(alloc),
    }
}

/// A line with no run behind it.
pub(crate) fn line<L: Link>(alloc: Global, status: u8, line: &[u8]) -> Result<Output<L>, NoMemory>
    ensures { IfOk result (λ o. due_of L.state_of o ≡ unrun status line.now) }
{
    let text = List::from_slice(alloc, line)?;
    Ok(unrun(alloc, status, text))
}
