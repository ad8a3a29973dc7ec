ghost use Rattle.truncation.specs.Laws.{RecoveriesStand};

/// A recovery that a Recoverer begins is a turn of its warden: the two go on standing for it.
pub fn recoveries_stand()
    ensures { RecoveriesStand }
{}
