use flat_code::Code;
use morty_base::List;
use script::Setup;

/// From what a world is replayed: a setup, and the code of its programs in order.
#[derive(Drop)]
pub struct Origin {
    pub setup: Setup,
    pub kit: List<Code>,
}
