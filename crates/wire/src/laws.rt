//! The laws of frames.

ghost use Rattle.wire.specs.Laws.{NoPrefix, OneFrame, CutIsShort};

/// No frame is a proper prefix of another, and no two envelopes have one frame.
pub fn no_prefix()
    ensures { NoPrefix }
{}

/// No envelope has two frames: what is decoded as one envelope is the same bytes.
pub fn one_frame()
    ensures { OneFrame }
{}

/// Every proper prefix of a frame is short, and has no other fault.
pub fn cut_is_short()
    ensures { CutIsShort }
{}
