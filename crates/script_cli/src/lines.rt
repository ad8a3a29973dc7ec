ghost use Rattle.std.specs.Prelude.{◌≡◌, ◌++◌, IfOk, OnOk};
ghost use Rattle.script_cli.specs.Lines.{fault_line, kind_word, no_link_line};

use itoa::Buffer;
use morty_base::{List, NoMemory};
use net_core::LinkKind;
use std::alloc::Global;
use txn_text::FaultKind;

/// The line that is written of a fault.
pub(crate) fn fault_text(alloc: Global, line: u32, kind: FaultKind) -> Result<List<u8>, NoMemory>
    ensures { IfOk result (λ text. text ≡ fault_line line kind) }
{
    let mut buffer = Buffer::new();
    let mut text = List::from_slice(alloc, b"morty: script line ")?;
    text.extend_from_slice(buffer.format(line).as_bytes())?;
    text.extend_from_slice(b": ")?;
    text.extend_from_slice(kind.words().as_bytes())?;
    text.push(b'\n')?;
    Ok(text)
}

// Adds the word of a kind.
fn push_kind(text: &mut List<u8>, kind: LinkKind) -> Result<(), NoMemory>
    ensures { OnOk result (text.new ≡ text.old ++ kind_word kind) }
{
    match kind {
        LinkKind::Fair => text.extend_from_slice(b"fair"),
        LinkKind::Listed => text.extend_from_slice(b"listed"),
        LinkKind::Seeded => text.extend_from_slice(b"seeded"),
    }
}

/// The line that is written where a link was not handed in.
pub(crate) fn no_link_text(alloc: Global, kind: LinkKind, slot: u32) -> Result<List<u8>, NoMemory>
    ensures { IfOk result (λ text. text ≡ no_link_line kind slot) }
{
    let mut buffer = Buffer::new();
    let mut text = List::from_slice(alloc, b"morty: no link ")?;
    push_kind(&mut text, kind)?;
    text.extend_from_slice(b" ")?;
    text.extend_from_slice(buffer.format(slot).as_bytes())?;
    text.push(b'\n')?;
    Ok(text)
}
