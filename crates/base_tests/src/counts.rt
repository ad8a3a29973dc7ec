ghost use Rattle.std.specs.Prelude.{◌≡◌, ◌+◌};

use morty_base::{Ledger, Steps};
use std::thread::join;

struct Asked;

impl Ledger for Asked {}

fn tick_twice<L: Ledger>(mut steps: Steps<L>) -> Steps<L>
    ensures { result ≡ steps + 2 }
{
    steps.tick();
    steps.tick();
    steps
}

// Two ledgers, each counted in a thread of its own.
#[test]
fn counts_in_threads(rt: HostRuntime) {
    let unread = Steps::<()>::new();
    let asked = Steps::<Asked>::new();
    let (_, _) = join(&rt, move || tick_twice(unread), move || tick_twice(asked));
}
