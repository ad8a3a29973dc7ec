ghost use Rattle.world.specs.Sound.{WorldsAreSound};

use law_frames::{envelopes_have_frames, scripts_are_within_limits, views_are_left};
use script_plans::setups_are_scripts;
use world_rows::{commits_are_told, histories_replay};

/// In each world that events lead to a view is left for each execution, all that is sent has a frame, and what is committed
/// was told.
pub(crate) fn worlds_are_sound()
    ensures { WorldsAreSound }
{
    histories_replay();
    setups_are_scripts();
    scripts_are_within_limits();
    envelopes_have_frames();
    views_are_left();
    commits_are_told();
}
