//! The committed executions are the serial run of their programs, and the base of each Drop is its map.
//!
//! The specs are the steps of one argument: read `SureNotes`, `Reads`, `PutsAreFronts`, `NothingBetween`, `Serial`.
//!
//! A Note tells a first value, the last write of a committed execution, or a write of a Puts, and only the last may be
//! unsure, since what a replica holds comes from a commit, a base or a Puts (`SureNotes`). A client's answers were told by
//! Notes (`AnswersLemmas`, `AnswersTold`), and it prepares only once each is sure (`ReadsNoted`), so each read of a
//! prepared content names a first value or a committed last write (`ReadsSure`). Its value may have come from a Puts of
//! that execution. But what an execution puts are the first of the writes that it prepares (`PutsAreFronts`), so the value
//! is that of the write that the read names (`ReadsCurrent`). And nothing committed lies between a read and its reader,
//! since it would be in conflict with the reader (`NothingBetween`).
//!
//! So the map that is left by the executions before a committed one has the value of each of its reads (`MapLemmas`). Its
//! content is a replay of its program on those values (`ContentLemmas`), hence the serial run of the program on that map
//! (`SerialReads`).
//! The base of a world has the write of the greatest name of each key, which is the last one of the serial run
//! (`SerialBase`), and each Drop that was sent carries that base (`DropsAreSerial`).
#![tactic(auto)]

ghost use Rattle.law_serial.specs.PutsAreFronts.{PutsAreFronts};
ghost use Rattle.law_serial.specs.SureNotes.{SureNotes};
ghost use Rattle.law_serial.specs.NothingBetween.{NothingBetween};
ghost use Rattle.law_serial.specs.Reads.{ReadsNoted, ReadsSure, ReadsCurrent};
ghost use Rattle.law_serial.specs.Serial.{SerialReads, SerialBase, DropsAreSerial};

/// What a Note calls sure is a first value, or the last write of its key in a committed execution, below the reader.
pub fn sure_notes()
    ensures { SureNotes }
{}

/// Between the write that a committed execution read and the execution itself nothing committed writes the key.
pub fn nothing_between()
    ensures { NothingBetween }
{}

/// Each read of a prepared content was told by a Note, and its write name was called sure by one.
pub fn reads_noted()
    ensures { ReadsNoted }
{}

/// The write name of each read of a prepared content is that of a first value or of a committed last write, below it.
pub fn reads_sure()
    ensures { ReadsSure }
{}

/// The writes that an execution puts are the first of those that it prepares; where its ending is not Done, it keeps none.
pub fn puts_are_fronts()
    ensures { PutsAreFronts }
{}

/// Each read of a prepared content has the value of the write that it names.
pub fn reads_current()
    ensures { ReadsCurrent }
{}

/// The committed executions by rising version read, printed, wrote and ended as the serial run of their programs does,
/// and their writes leave its map.
pub fn serial_reads()
    ensures { SerialReads }
{}

/// The base of a world at a version is the map that the serial run up to that version leaves, on the keys with a kept write.
pub fn serial_base()
    ensures { SerialBase }
{}

/// Each Drop that was sent carries the base of the world at its version, then and ever after, and it is the serial map there.
pub fn drops_are_serial()
    ensures { DropsAreSerial }
{}
