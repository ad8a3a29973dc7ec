ghost use Rattle.std.specs.Prelude.{◌≡◌, ◌+◌, ◌<◌, ◌≤◌, ◌↔◌, ◌++◌, [], length, IfOk, IfSome, IsErrOf, OnOk, OnErr, vec_len};
ghost use Rattle.morty_io.specs.Faults.{Rose};
ghost use Rattle.morty_io.specs.Bytes.{IfTold, IsRestOf, Takes, TakesPart};

use crate::traits::{Sink, Source};
use std::alloc::{AllocError, Global};

/// Why a source was not read whole.
#[derive(Clone, Copy, Debug, PartialEq, Eq)]
pub enum ReadEnd {
    ReadFault,
    TooLong,
    NoMemory,
}

impl From<AllocError> for ReadEnd {
    ghost use Rattle.std.specs.Prelude.{◌≡◌};
    ghost use Rattle.morty_io.specs.declared.whole.ReadEnd.TheVariants.{NoMemory};

    ghost from_gives = { λ _ e. e ≡ NoMemory };

    fn from(_e: AllocError) -> ReadEnd {
        ReadEnd::NoMemory
    }
}

/// A sink failed before it had taken everything.
#[derive(Clone, Copy, Debug, PartialEq, Eq)]
pub struct WriteFault;

/// How many bytes are asked of a source at a time.
const CHUNK: usize = 4096;

/// Reads to the source's end, of at most `limit` bytes. What was read before a refusal is gone from the source.
pub fn read_whole<S: Source>(alloc: Global, src: &mut S, limit: usize) -> Result<Vec<u8>, ReadEnd>
    requires { limit < usize.MAX }
    ensures whole { IfOk result (λ v. IfSome (S.left src.old) (λ bytes. v.items ≡ bytes)) }
    ensures emptied { OnOk result (IfSome (S.left src.old) (λ _. S.left src.new ≡ Some [])) }
    ensures within { IfOk result (λ v. vec_len v ≤ limit) }

    ensures fault { IsErrOf result ReadEnd.ReadFault → Rose (S.faults src.old) (S.faults src.new) }
    ensures too_long { IfTold (S.left src.old) (S.left src.new)
        (λ bytes rest. IsErrOf result ReadEnd.TooLong ↔ (limit + length rest < length bytes)) }
    ensures was_longer { IsErrOf result ReadEnd.TooLong → IfSome (S.left src.old) (λ bytes. limit < length bytes) }

    // What was taken went from the front, and is at most one byte past the limit.
    ensures rest { IfTold (S.left src.old) (S.left src.new) IsRestOf }
    ensures at_most { IfTold (S.left src.old) (S.left src.new)
        (λ bytes rest. length bytes ≤ limit + 1 + length rest) }
    ensures counted { S.faults src.old ≤ S.faults src.new }
{
    let mut bytes = Vec::new(alloc);
    let mut chunk = [0u8; CHUNK];
    loop {
        let room = (limit + 1 - bytes.len()).min(CHUNK);
        let Ok(n) = src.read(&mut chunk[..room]) else {
            return Err(ReadEnd::ReadFault);
        };
        if n == 0 {
            return Ok(bytes);
        }
        if n > limit - bytes.len() {
            return Err(ReadEnd::TooLong);
        }
        bytes.extend_from_slice(&chunk[..n])?;
    }
}

/// Writes all of the bytes, or a front of them and then fails.
pub fn write_whole<K: Sink>(out: &mut K, bytes: &[u8]) -> Result<(), WriteFault>
    ensures ok { OnOk result (Takes (K.taken out.old) (K.taken out.new) bytes.now) }
    ensures part { OnErr result (TakesPart (K.taken out.old) (K.taken out.new) bytes.now) }
    ensures fault { OnErr result (Rose (K.faults out.old) (K.faults out.new)) }
    ensures counted { K.faults out.old ≤ K.faults out.new }
{
    let mut done = 0;
    while done < bytes.len() {
        let Ok(n) = out.write(&bytes[done..]) else {
            return Err(WriteFault);
        };
        done += n;
    }
    Ok(())
}
