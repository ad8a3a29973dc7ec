ghost use Rattle.std.specs.Prelude.{◌≡◌, ◌<◌};
ghost use Rattle.lab.specs.Draws.{draw, next_transfer};

use rand_core::utils::NextWord;
use rand_pcg::Pcg32;

/// How many accounts there are, numbered from 1.
pub const ACCOUNTS: u32 = 50;

/// The greatest amount of a transfer.
pub const GREATEST_AMOUNT: u32 = 9;

/// An amount that is moved from one account to another.
#[derive(Clone, Copy, Debug, PartialEq, Eq)]
pub struct Transfer {
    pub from: u32,
    pub to: u32,
    pub amount: u32,
}

/// A draw below a number: the next word, modulo that number.
#[tactic(auto, unfolding(crate::specs::Draws::draw))]
fn draw(rng: &mut Pcg32, below: u32) -> u32
    requires { 0 < below }
    ensures drawn { (result, rng.new) ≡ draw below rng.old }
    ensures less { result < below }
{
    rng.next_word() % below
}

/// The transfer of the next three draws: an account, another account, and an amount.
pub fn next_transfer(rng: &mut Pcg32) -> Transfer
    ensures { (result, rng.new) ≡ next_transfer rng.old }
{
    let from = 1 + draw(rng, ACCOUNTS);
    let other = 1 + draw(rng, ACCOUNTS - 1);
    let amount = 1 + draw(rng, GREATEST_AMOUNT);
    let to = if other >= from { other + 1 } else { other };
    Transfer { from, to, amount }
}
