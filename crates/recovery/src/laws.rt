ghost use Rattle.recovery.specs.Laws.{KeepsTruncations};

/// Recovery neither reads nor changes truncations: a warden that also truncates recovers as one that does not.
pub fn recovery_keeps_truncations()
    ensures { KeepsTruncations }
{}
