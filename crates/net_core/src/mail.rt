//! The mail.

ghost use Rattle.std.specs.Prelude.{◌≡◌, ◌++◌, ◌∷◌, [], ℕ, length, slice_get, IfOk, OnOk, OnErr};
ghost use Rattle.std.specs.Option.{option_copied, option_map};
ghost use Rattle.wire.specs.Sendable.{MaySend};
ghost use Rattle.wire.specs.Wire.{frame};

use bytes::{Bytes, BytesMut};
use morty_base::{List, NoMemory};
use msg::Envelope;
use std::alloc::Global;
use std::marker::Model;
use wire::{FrameFault, decode, encode_in};

// Frames are cut from blocks of this size, one after another.
const BLOCK_LEN: usize = 64 * 1024;

/// Contracts see the envelopes in order of sending. Each is kept as the bytes of its frame.
#[derive(Drop)]
pub struct Mail {
    alloc: Global,
    room: BytesMut,
    frames: List<Bytes>,
}

impl Model for Mail {
    ghost use Rattle.std.specs.Prelude.{List, map};
    ghost use Rattle.std.specs.List.{All};
    ghost use Rattle.msg.specs.declared.Envelope.{Envelope as Sent};
    ghost use Rattle.net_core.specs.Mail.{opened, IsFrame};

    ghost Value = { List Sent };

    ghost view = { λ m. map opened m.frames };

    ghost invariant = { λ m. All IsFrame m.frames };
}

impl Mail {
    /// A mail in which nothing was sent.
    pub fn new(alloc: Global) -> Result<Mail, NoMemory>
        ensures { IfOk result (λ m. m ≡ []) }
    {
        let room = BytesMut::with_capacity(alloc, BLOCK_LEN)?;
        Ok(Mail {
            alloc,
            room,
            frames: List::new(alloc),
        })
    }

    /// Keeps the envelope's frame, and gives its number. Envelopes are numbered from 0.
    pub fn send(&mut self, envelope: &Envelope) -> Result<u64, NoMemory>
        requires { MaySend envelope.now }
        ensures ok { OnOk result (self.new ≡ self.old ++ envelope.now ∷ []) }
        ensures number { IfOk result (λ i. i ≡ length self.old) }
        ensures err { OnErr result (self.new ≡ self.old) }
    {
        let number = self.frames.len() as u64;
        let frame = encode_in(&mut self.room, envelope)?;
        self.frames.push(frame)?;
        Ok(number)
    }

    /// How many envelopes were sent.
    pub fn sent(&self) -> u64
        ensures { result ≡ length self.now }
    {
        self.frames.len() as u64
    }

    /// The frame of the envelope of this number, if one has it.
    pub fn frame(&self, i: u64) -> Option<&[u8]>
        ensures { option_copied result ≡ option_map frame (slice_get self.now i) }
    {
        match self.frames.get(i as usize) {
            None => None,
            Some(frame) => Some(frame.as_slice()),
        }
    }

    /// The envelope of this number, if one has it.
    pub fn get(&self, i: u64) -> Result<Option<Envelope>, NoMemory>
        ensures { IfOk result (λ o. o ≡ slice_get self.now i) }
    {
        let Some(frame) = self.frames.get(i as usize) else {
            return Ok(None);
        };
        match decode(self.alloc, frame.as_slice()) {
            Ok((envelope, _)) => Ok(Some(envelope)),
            Err(FrameFault::NoMemory) => Err(NoMemory),
            // What is kept is a frame.
            Err(_) => unreachable!(),
        }
    }
}
