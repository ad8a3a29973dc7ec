ghost use Rattle.std.specs.Prelude.{◌≡◌, true};
ghost use Rattle.script.specs.Meaning.{is_stated, with_stated, with_setting, said_by};
ghost use Rattle.script.specs.Checks.{may_be};
ghost use Rattle.script.specs.Building.{HasSameNames};

use crate::items::{SettingName, Stated};
use crate::limits::{GREATEST_GAP, MOST_EXECS, MOST_TRIES, MOST_TURNS, MOST_WARDENS};
use crate::setup::Setup;

/// Whether a setting was stated.
pub fn is_stated(name: SettingName, stated: Stated) -> bool
    ensures { result ≡ is_stated name stated }
{
    match name {
        SettingName::Replicas => stated.replicas,
        SettingName::Wardens => stated.wardens,
        SettingName::Tries => stated.tries,
        SettingName::Execs => stated.execs,
        SettingName::Gap => stated.gap,
        SettingName::Turns => stated.turns,
    }
}

/// The settings that were stated, with one more.
pub fn with_stated(name: SettingName, stated: Stated) -> Stated
    ensures { result ≡ with_stated name stated }
{
    let mut now = stated;
    match name {
        SettingName::Replicas => now.replicas = true,
        SettingName::Wardens => now.wardens = true,
        SettingName::Tries => now.tries = true,
        SettingName::Execs => now.execs = true,
        SettingName::Gap => now.gap = true,
        SettingName::Turns => now.turns = true,
    }
    now
}

/// Whether a setting may have this number.
pub fn may_be(name: SettingName, number: u64) -> bool
    ensures { result ≡ may_be name number }
{
    match name {
        SettingName::Replicas => number == 1 || number == 3 || number == 5,
        SettingName::Wardens => number <= MOST_WARDENS,
        SettingName::Tries => 1 <= number && number <= MOST_TRIES,
        SettingName::Execs => 1 <= number && number <= MOST_EXECS,
        SettingName::Gap => 1 <= number && number <= GREATEST_GAP,
        SettingName::Turns => 1 <= number && number <= MOST_TURNS,
    }
}

/// Gives a setting its number.
pub fn set(setup: &mut Setup, name: SettingName, number: u64)
    requires { may_be name number ≡ true }
    ensures value { said_by setup.new ≡ with_setting name number (said_by setup.old) }
    ensures names { HasSameNames setup.old setup.new }
{
    match name {
        SettingName::Replicas => setup.replicas = number as u32,
        SettingName::Wardens => setup.wardens = number as u32,
        SettingName::Tries => setup.tries = number as u32,
        SettingName::Execs => setup.execs = number as u32,
        SettingName::Gap => setup.gap = number,
        SettingName::Turns => setup.turns = number as u32,
    }
}
