ghost use Rattle.std.specs.Prelude.{◌≡◌, ◌+◌, ◌<◌, ◌≤◌, ℕ, List, [], Option, length, take, drop, IfOk, IfSome, OnErr};
ghost use Rattle.morty_io.specs.Faults.{Rose};
ghost use Rattle.morty_io.specs.Bytes.{Gives, Takes};

use std::error::Error;
use std::fmt;

/// A read or a write failed.
#[derive(Clone, Copy, Debug, PartialEq, Eq)]
pub struct Failed;

impl fmt::Display for Failed {
    fn fmt<W: fmt::Write>(&self, f: &mut fmt::Formatter<W>) -> fmt::Result {
        write!(f, "failed")
    }
}

impl Error for Failed {}

/// Gives bytes, piece by piece.
pub trait Source {
    // The bytes still to come. Only a source over memory tells them.
    ghost left: { Self → Option (List ℕ) };

    // How many calls failed so far, up to the greatest u64.
    ghost faults: { Self → ℕ };

    /// Moves bytes to the front of the buffer and says how many. Zero for a buffer that has room means the end.
    /// The rest of the buffer stays, and all of it where the call fails.
    fn read(&mut self, buf: &mut [u8]) -> Result<usize, Failed>
        ensures bound { IfOk result (λ n. n ≤ length buf.old) }
        ensures moved { IfOk result (λ n. Gives (left self.old) (left self.new) (take n buf.new)) }
        ensures end { IfOk result (λ n. n ≡ 0 → 0 < length buf.old → IfSome (left self.new) (λ rest. rest ≡ [])) }
        ensures behind { IfOk result (λ n. drop n buf.new ≡ drop n buf.old) }
        ensures failed { OnErr result (Rose (faults self.old) (faults self.new)) }
        ensures kept { OnErr result (left self.new ≡ left self.old) }
        ensures untouched { OnErr result (buf.new ≡ buf.old) }
        ensures counted { faults self.old ≤ faults self.new };
}

/// Takes bytes, piece by piece.
pub trait Sink {
    // The bytes taken so far. Only a sink over memory tells them.
    ghost taken: { Self → Option (List ℕ) };

    // How many calls failed so far, up to the greatest u64.
    ghost faults: { Self → ℕ };

    /// Takes bytes from the front of the piece and says how many, at least one where there is one.
    fn write(&mut self, piece: &[u8]) -> Result<usize, Failed>
        ensures bound { IfOk result (λ n. n ≤ length piece.now) }
        ensures some { IfOk result (λ n. 0 < length piece.now → 0 < n) }
        ensures appended { IfOk result (λ n. Takes (taken self.old) (taken self.new) (take n piece.now)) }
        ensures failed { OnErr result (Rose (faults self.old) (faults self.new)) }
        ensures kept { OnErr result (taken self.new ≡ taken self.old) }
        ensures counted { faults self.old ≤ faults self.new };
}
