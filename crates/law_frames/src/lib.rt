//! Each envelope of a run has a frame, so that the mail can be kept as frames.
//!
//! Read `specs/Limits`, what is asked of a plan, then `Frames`, the law, and `Handling`, what the calls of nodes ask for.
//!
//! Each envelope is from a node of the script to one: a client asks for its own execution alone (`proofs/QuestionsAsked`),
//! so those whom a replica tells are clients of the script (`NodesExist`). Each content is what a program did on some
//! answers, and so is short (`ContentsShort`); it goes with Commit alone (`ProposalsShaped`). What a replica answers to a
//! Fence is in rising order, since it has one committed content and one vote of each execution (`KeptRising`,
//! `RisingLemmas`). Such a list is not longer than the list of what was prepared (`ListsCounted`), which stood in the mail
//! while that still had room (`SentBefore`). By these each step sends what has a frame, if all that was sent before it has
//! (`EnvelopesHaveFrames`). The plan of each script is within the limits (`ScriptsAreWithinLimits`), and a warden, which
//! uses at most one view of an execution in a step (`ViewsUsed`), has used no more than the mail has room for
//! (`ViewsAreLeft`). Whatever has a frame, a replica can handle (`SendableIsWithinLimits`).
#![tactic(auto)]

ghost use Rattle.law_frames.specs.Frames.{EnvelopesHaveFrames};
ghost use Rattle.law_frames.specs.Handling.{SendableIsWithinLimits, ViewsAreLeft};
ghost use Rattle.law_frames.specs.Limits.{ScriptsAreWithinLimits};

/// Each envelope that was sent has a frame, and so has each that an event would send where the mail has room.
pub fn envelopes_have_frames()
    ensures { EnvelopesHaveFrames }
{}

/// The plan of a script within its limits is within those that the laws of frames ask for.
pub fn scripts_are_within_limits()
    ensures { ScriptsAreWithinLimits }
{}

/// A replica can handle whatever has a frame.
pub fn sendable_is_within_limits()
    ensures { SendableIsWithinLimits }
{}

/// A warden has a view left for each execution, whatever happens.
pub fn views_are_left()
    ensures { ViewsAreLeft }
{}
