ghost use Rattle.std.specs.Prelude.{◌≡◌, ◌<◌, length, All, IfOk};
ghost use Rattle.txn_parse.specs.Binding.{FaultIs};
ghost use Rattle.script.specs.Items.{item, items};
ghost use Rattle.script.specs.Meaning.{nothing_said, said_by, script_of};
ghost use Rattle.script.specs.Checks.{all_checks};
ghost use Rattle.script.specs.Texts.{IsReadOf};
ghost use Rattle.script.specs.Canonical.{canonical_script};
ghost use Rattle.script.specs.Sayable.{IsSetup};
ghost use Rattle.script.specs.ReadBack.{IsReadBack};
ghost use Rattle.script.specs.declared.setup.Setup.{Setup as SetupValue};
ghost use Rattle.script.specs.Building.{IsReadable};

use crate::builder::SetupBuilder;
use crate::items::RawItem;
use crate::setup::Setup;
use crate::stages::read_items;
use std::alloc::Global;
use txn_text::{TextFault, tokens};

// What the items say, or the fault of the first check that fails.
fn setup_of(alloc: Global, text: &[u8], list: &[RawItem]) -> Result<Setup, TextFault>
    requires { All (λ r. IsReadable text.now (item r)) list.now }
    ensures fault { FaultIs (all_checks text.now nothing_said (items list.now)) result }
    ensures said { IfOk result (λ s. said_by s ≡ script_of text.now (items list.now)) }
{
    let mut builder = SetupBuilder::new(alloc);
    for raw in list {
        builder.take(alloc, text, raw)?;
    }
    Ok(builder.into_setup())
}

/// The setup that a text says, or its one fault: of its first bad token; else of the first token with which no script
/// goes on, or that is past a limit; else of the first item that means nothing. A setup is within the limits of scripts.
/// The canonical text of a setup that some text says is read as that setup.
pub fn read_script(alloc: Global, bytes: &[u8]) -> Result<Setup, TextFault>
    requires { length bytes.now < u32.MAX }
    ensures says { IsReadOf bytes.now result }
    ensures within { IfOk result IsSetup }
    ensures back { (s : SetupValue) → IsSetup s → bytes.now ≡ canonical_script s → IsReadBack s result }
{
    let toks = tokens(alloc, bytes)?;
    let list = read_items(alloc, bytes, toks.as_slice())?;
    setup_of(alloc, bytes, list.as_slice())
}
