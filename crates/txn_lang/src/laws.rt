ghost use Rattle.std.specs.Prelude.{ℕ};
ghost use Rattle.txn_lang.specs.declared.tree.Block.{Block as BlockValue};
ghost use Rattle.txn_lang.specs.Runs.{replay};
ghost use Rattle.txn_lang.specs.Examples.{FiveReads, PayAborts, ReadsTwice, ReadsOwnWrite};
ghost use Rattle.txn_lang.specs.Laws.{TakesAnswers, GrowsWithAnswers, ReadsWhatItAsked, AsksOnce, KnowsItsOwn, GoesOnWithAnswer, ReplaysSerial, KeepsLimits};

/// A replay is a function of the answers that it takes.
pub fn replay_takes_answers()
    ensures { (body : BlockValue) (n : ℕ) → TakesAnswers (replay body n) }
{}

/// The reads, the writes and the printed lines of a replay are fronts of those on more answers.
pub fn replay_grows()
    ensures { (body : BlockValue) (n : ℕ) → GrowsWithAnswers (replay body n) }
{}

/// The key of each read is the one that was asked for it.
pub fn replay_reads_what_it_asked()
    ensures { (body : BlockValue) (n : ℕ) → ReadsWhatItAsked (replay body n) }
{}

/// No key is asked twice, nor after the execution wrote it.
pub fn replay_asks_once()
    ensures { (body : BlockValue) (n : ℕ) → AsksOnce (replay body n) }
{}

/// What a replay knows of a key is its last own write, else the answer.
pub fn replay_knows()
    ensures { (body : BlockValue) (n : ℕ) → KnowsItsOwn (replay body n) }
{}

/// A replay on one more answer does what it did before it asked, and then what follows that answer.
pub fn replay_goes_on()
    ensures { (body : BlockValue) (n : ℕ) → GoesOnWithAnswer body n }
{}

/// A serial run is the replay on the values that it read, and the other way round.
pub fn replay_is_serial()
    ensures { (body : BlockValue) (n : ℕ) → ReplaysSerial body n }
{}

/// No run of a program within the limits passes them.
pub fn runs_keep_limits()
    ensures { (body : BlockValue) (n : ℕ) → KeepsLimits body n }
{}

/// What some programs do on some answers.
pub fn worked_programs()
    ensures five { FiveReads }
    ensures pay { PayAborts }
    ensures twice { ReadsTwice }
    ensures own { ReadsOwnWrite }
{}
