ghost use Rattle.std.specs.Prelude.{◌≡◌, ◌<◌};
ghost use Rattle.net_core.specs.Draws.{draw};

use rand_core::utils::NextWord;
use rand_pcg::Pcg32;

/// A draw below a number: the next word of 32 bits, modulo that number.
#[tactic(auto, unfolding(crate::specs::Draws::draw))]
pub fn draw(rng: &mut Pcg32, below: u64) -> u64
    requires { 0 < below }
    ensures drawn { (result, rng.new) ≡ draw below rng.old }
    ensures less { result < below }
{
    u64::from(rng.next_word()) % below
}
