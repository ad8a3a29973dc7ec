ghost use Rattle.std.specs.Prelude.{◌≡◌, ◌+◌, ◌<◌, ◌≤◌, ◌↔◌, ◌++◌, [], Some, length, min, take, drop, Contains, IsErr, IfOk, IfSome, OnErr};
ghost use Rattle.morty_io.specs.Faults.{Rose, one_more};
ghost use Rattle.morty_io.specs.Bytes.{Gives};

use crate::calls::Calls;
use crate::copy::copy_front;
use crate::traits::{Failed, Source};
use morty_base::List;
use std::marker::Model;

/// Bytes in memory, for tests. Calls are numbered from 1, failed and empty ones too, and those listed fail.
#[derive(Drop)]
pub struct MemSource {
    bytes: List<u8>,
    at: usize,
    calls: Calls,
}

impl Model for MemSource {
    ghost use Rattle.std.specs.Prelude.{◌≤◌, length, drop};
    ghost use Rattle.morty_io.specs.Memory.{MemSourceState};

    ghost Value = { MemSourceState };

    ghost view = { λ s. record { left = drop s.at s.bytes; calls = s.calls.made; fails = s.calls.fails; faults = s.calls.faults } };

    ghost invariant = { λ s. s.at ≤ length s.bytes };
}

impl MemSource {
    pub fn new(bytes: List<u8>, fails: List<u64>) -> MemSource
        ensures { result ≡ record { left = bytes; calls = 0; fails = fails; faults = 0 } }
    {
        MemSource {
            bytes,
            at: 0,
            calls: Calls::new(fails),
        }
    }

    /// The bytes still to come.
    pub fn left(&self) -> &[u8]
        ensures { result.now ≡ self.now.left }
    {
        &self.bytes.as_slice()[self.at..]
    }

    /// How many calls were made.
    pub fn calls(&self) -> u64
        ensures { result ≡ self.now.calls }
    {
        self.calls.made()
    }
}

impl Source for MemSource {
    ghost left = { λ s. Some s.left };

    ghost faults = { λ s. s.faults };

    fn read(&mut self, buf: &mut [u8]) -> Result<usize, Failed>
        ensures listed { IsErr result ↔ Contains self.old.fails (self.old.calls + 1) }
        ensures count { IfOk result (λ n. n ≡ min (length buf.old) (length self.old.left)) }
        ensures buffer { IfOk result (λ n. buf.new ≡ take n self.old.left ++ drop n buf.old) }
        ensures ok { IfOk result (λ n. self.new ≡ record self.old { left = drop n self.old.left; calls = one_more self.old.calls }) }
        ensures err { OnErr result (self.new ≡ record self.old { calls = one_more self.old.calls; faults = one_more self.old.faults }) }

        // What each source promises.
        ensures bound { IfOk result (λ n. n ≤ length buf.old) }
        ensures moved { IfOk result (λ n. Gives (Some self.old.left) (Some self.new.left) (take n buf.new)) }
        ensures end { IfOk result (λ n. n ≡ 0 → 0 < length buf.old → IfSome (Some self.new.left) (λ rest. rest ≡ [])) }
        ensures behind { IfOk result (λ n. drop n buf.new ≡ drop n buf.old) }
        ensures failed { OnErr result (Rose self.old.faults self.new.faults) }
        ensures kept { OnErr result (Some self.new.left ≡ Some self.old.left) }
        ensures untouched { OnErr result (buf.new ≡ buf.old) }
        ensures counted { self.old.faults ≤ self.new.faults }
    {
        if self.calls.begin() {
            return Err(self.calls.fault());
        }
        let n = copy_front(&self.bytes.as_slice()[self.at..], buf);
        self.at += n;
        Ok(n)
    }
}
