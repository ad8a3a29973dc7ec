ghost use Rattle.std.specs.Prelude.{◌≡◌, OnOk, OnErr, Some, map};
ghost use Rattle.std.specs.List.{list_any};
ghost use Rattle.morty_base.specs.Names.{same_exec};
ghost use Rattle.msg.specs.declared.Pick.TheVariants.{Recover};
ghost use Rattle.net_core.specs.Fair.{fair, recovers, recover_once};
ghost use Rattle.net_core.specs.Minds.{remembers};
ghost use Rattle.net_core.specs.Replay.{shown};

use morty_base::{Exec, NoMemory};
use net_core::{LinkMind, Menu, Pick};

#[tactic(auto, unfolding(morty_base::specs::Names::same_exec))]
fn is_same_exec(x: Exec, y: Exec) -> bool
    ensures { result ≡ same_exec x y }
{
    x == y
}

#[tactic(auto, using(crate::proofs::Recovered::any_recovered))]
fn was_recovered(recovered: &[Exec], exec: Exec) -> bool
    ensures { result ≡ list_any (recovers exec) (map Recover recovered.now) }
{
    has_exec(recovered, exec)
}

fn has_exec(execs: &[Exec], exec: Exec) -> bool
    ensures { result ≡ list_any (same_exec exec) execs.now }
{
    execs.iter().any(|other| is_same_exec(exec, *other))
}

fn recover_where_new(recovered: &[Exec], exec: Exec) -> Pick
    ensures { result ≡ recover_once (map Recover recovered.now) (Some exec) }
{
    if was_recovered(recovered, exec) {
        Pick::Idle
    } else {
        Pick::Recover(exec)
    }
}

/// An execution that waits for a warden is recovered once.
pub fn recover_once(recovered: &[Exec], stuck: Option<Exec>) -> Pick
    ensures { result ≡ recover_once (map Recover recovered.now) stuck }
{
    match stuck {
        None => Pick::Idle,
        Some(exec) => recover_where_new(recovered, exec),
    }
}

/// The fair pick of a link that picked to recover these executions.
pub fn pick_fairly(recovered: &[Exec], menu: &Menu<'_>) -> Pick
    ensures { result ≡ fair (map Recover recovered.now) (shown menu.entry.now) }
{
    if let Some(place) = menu.fresh.first() {
        return Pick::Deliver(*place);
    }
    if menu.go {
        return Pick::Go;
    }
    recover_once(recovered, menu.stuck)
}

/// Remembers what was picked to recover.
pub fn remember(mind: &mut LinkMind, pick: Pick) -> Result<(), NoMemory>
    ensures ok { OnOk result (mind.new ≡ remembers pick mind.old) }
    ensures err { OnErr result (mind.new ≡ mind.old) }
    ensures slot { mind.new.slot ≡ mind.old.slot }
    ensures late { mind.new.late ≡ mind.old.late }
{
    match pick {
        Pick::Recover(exec) => mind.recovered.push(exec),
        _ => Ok(()),
    }
}
