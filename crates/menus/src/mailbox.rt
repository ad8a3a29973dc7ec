//! The mailbox of one node.

ghost use Rattle.std.specs.Prelude.{◌≡◌, ℕ, [], length, Some, IfOk};
ghost use Rattle.std.specs.List.{slice_get};
ghost use Rattle.morty_base.specs.declared.names.NodeId.{NodeId as NodeValue};
ghost use Rattle.menus.specs.declared.mailbox.Mailbox.{Mailbox as MailboxValue};
ghost use Rattle.menus.specs.Mailbox.{IsMailbox};

use crate::inbox::Inbox;
use morty_base::NoMemory;
use std::alloc::Global;

/// The envelopes to a node, and whether it is stopped.
#[derive(Debug, Drop)]
pub struct Mailbox {
    pub inbox: Inbox,
    pub is_stopped: bool,
}

/// So many mailboxes, to which nothing came.
pub fn empty_mailboxes(alloc: Global, count: u32) -> Result<Vec<Mailbox>, NoMemory>
    ensures count { IfOk result (λ bs. length bs.items ≡ count) }
    ensures each { IfOk result (λ bs. (i : ℕ) (b : MailboxValue) → slice_get bs.items i ≡ Some b → (n : NodeValue) → IsMailbox n [] [] [] b) }
{
    let mut boxes = Vec::new(alloc);
    for _ in 0..count {
        boxes.push(Mailbox {
            inbox: Inbox::new(alloc),
            is_stopped: false,
        })?;
    }
    Ok(boxes)
}
