//! The code of a setup's programs.

ghost use Rattle.std.specs.Prelude.{IfOk};
ghost use Rattle.world.specs.Origin.{AreCodes};

use flat_code::{Code, flatten};
use morty_base::{List, NoMemory};
use script::Setup;
use std::alloc::Global;

/// The code of each program of a setup, in order.
pub fn kit(alloc: Global, setup: &Setup) -> Result<List<Code>, NoMemory>
    ensures { IfOk result (λ codes. AreCodes setup.now codes) }
{
    let mut codes = List::new(alloc);
    for named in setup.progs.as_slice() {
        let code = flatten(alloc, &named.prog)?;
        codes.push(code)?;
    }
    Ok(codes)
}
