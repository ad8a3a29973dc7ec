ghost use Rattle.std.specs.Prelude.{◌≡◌, ◌<◌, ◌≤◌, ◌↔◌, ◌++◌, [], Some, length, min, take, IsErr, IfOk, OnErr};
ghost use Rattle.morty_io.specs.Faults.{Rose, one_more};
ghost use Rattle.morty_io.specs.Bytes.{Takes};
ghost use Rattle.morty_io.specs.Memory.{FailsNext, room_left};

use crate::calls::Calls;
use crate::traits::{Failed, Sink};
use morty_base::{List, NoMemory};
use std::alloc::Global;
use std::marker::Model;

/// How many bytes a sink over memory has room for.
pub const SINK_ROOM: usize = 16_777_216;

/// Bytes kept in memory, for tests. Calls are numbered from 1, failed and empty ones too, and those listed fail,
/// as does one that has bytes to write where no room is left.
#[derive(Drop)]
pub struct MemSink {
    bytes: Vec<u8>,
    most: usize,
    calls: Calls,
}

impl Model for MemSink {
    ghost use Rattle.std.specs.Prelude.{◌≤◌, vec_len, vec_capacity};
    ghost use Rattle.morty_io.specs.Memory.{MemSinkState};
    ghost use Rattle.morty_io.specs.declared.mem_sink.TheConstants.{SINK_ROOM};

    ghost Value = { MemSinkState };

    ghost view = { λ s. record { taken = s.bytes.items; most = s.most; calls = s.calls.made; fails = s.calls.fails; faults = s.calls.faults } };

    ghost invariant = { λ s. (vec_len s.bytes ≤ SINK_ROOM) × (SINK_ROOM ≤ vec_capacity s.bytes) × (1 ≤ s.most) };
}

impl MemSink {
    /// A sink of which one call takes at most `most` bytes. Its room is reserved here.
    pub fn new(alloc: Global, most: usize, fails: List<u64>) -> Result<MemSink, NoMemory>
        requires { 1 ≤ most }
        ensures { IfOk result (λ sink. sink ≡ record { taken = []; most = most; calls = 0; fails = fails; faults = 0 }) }
    {
        let bytes = Vec::with_capacity(alloc, SINK_ROOM)?;
        Ok(MemSink {
            bytes,
            most,
            calls: Calls::new(fails),
        })
    }

    /// The bytes taken so far.
    pub fn taken(&self) -> &[u8]
        ensures { result.now ≡ self.now.taken }
    {
        self.bytes.as_slice()
    }

    /// How many calls were made.
    pub fn calls(&self) -> u64
        ensures { result ≡ self.now.calls }
    {
        self.calls.made()
    }
}

impl Sink for MemSink {
    ghost taken = { λ s. Some s.taken };

    ghost faults = { λ s. s.faults };

    fn write(&mut self, piece: &[u8]) -> Result<usize, Failed>
        ensures fails { IsErr result ↔ FailsNext self.old piece.now }
        ensures count { IfOk result (λ n. n ≡ min (min (length piece.now) self.old.most) (room_left self.old)) }
        ensures ok { IfOk result (λ n. self.new ≡ record self.old { taken = self.old.taken ++ take n piece.now; calls = one_more self.old.calls }) }
        ensures err { OnErr result (self.new ≡ record self.old { calls = one_more self.old.calls; faults = one_more self.old.faults }) }

        // What each sink promises.
        ensures bound { IfOk result (λ n. n ≤ length piece.now) }
        ensures some { IfOk result (λ n. 0 < length piece.now → 0 < n) }
        ensures appended { IfOk result (λ n. Takes (Some self.old.taken) (Some self.new.taken) (take n piece.now)) }
        ensures failed { OnErr result (Rose self.old.faults self.new.faults) }
        ensures kept { OnErr result (Some self.new.taken ≡ Some self.old.taken) }
        ensures counted { self.old.faults ≤ self.new.faults }
    {
        let listed = self.calls.begin();
        let room = SINK_ROOM - self.bytes.len();
        if listed || (room == 0 && !piece.is_empty()) {
            return Err(self.calls.fault());
        }
        let n = piece.len().min(self.most).min(room);
        match self.bytes.extend_from_slice(&piece[..n]) {
            Ok(()) => Ok(n),
            Err(_) => unreachable!(),
        }
    }
}
