//! Bytes and numbers, big-endian.

ghost use Rattle.wire.specs.Outcome.{Gives};
ghost use Rattle.wire.specs.Field.{u8, u16, u32, u64, i64};

use crate::fault::FrameFault;

#[tactic(auto, unfolding(crate::specs::Field::u8))]
pub(crate) fn take_byte(bytes: &[u8]) -> Result<(u8, &[u8]), FrameFault>
    ensures { Gives (λ x. (x.0, x.1.now)) result (u8.judged bytes.now) }
{
    match bytes {
        [] => Err(FrameFault::Short),
        [byte, rest @ ..] => Ok((*byte, rest)),
    }
}

#[tactic(auto, unfolding(crate::specs::Field::u16))]
pub(crate) fn take_u16(bytes: &[u8]) -> Result<(u16, &[u8]), FrameFault>
    ensures { Gives (λ x. (x.0, x.1.now)) result (u16.judged bytes.now) }
{
    if bytes.len() < 2 {
        return Err(FrameFault::Short);
    }
    let (front, rest) = bytes.split_at(2);
    Ok((u16::from_be_bytes([front[0], front[1]]), rest))
}

#[tactic(auto, unfolding(crate::specs::Field::u32))]
pub(crate) fn take_u32(bytes: &[u8]) -> Result<(u32, &[u8]), FrameFault>
    ensures { Gives (λ x. (x.0, x.1.now)) result (u32.judged bytes.now) }
{
    if bytes.len() < 4 {
        return Err(FrameFault::Short);
    }
    let (front, rest) = bytes.split_at(4);
    let number = u32::from_be_bytes([front[0], front[1], front[2], front[3]]);
    Ok((number, rest))
}

#[tactic(auto, unfolding(crate::specs::Field::u64))]
pub(crate) fn take_u64(bytes: &[u8]) -> Result<(u64, &[u8]), FrameFault>
    ensures { Gives (λ x. (x.0, x.1.now)) result (u64.judged bytes.now) }
{
    if bytes.len() < 8 {
        return Err(FrameFault::Short);
    }
    let (front, rest) = bytes.split_at(8);
    let number = u64::from_be_bytes([
        front[0], front[1], front[2], front[3], front[4], front[5], front[6], front[7],
    ]);
    Ok((number, rest))
}

#[tactic(auto, unfolding(crate::specs::Field::i64))]
pub(crate) fn take_i64(bytes: &[u8]) -> Result<(i64, &[u8]), FrameFault>
    ensures { Gives (λ x. (x.0, x.1.now)) result (i64.judged bytes.now) }
{
    let (number, rest) = take_u64(bytes)?;
    Ok((number.cast_signed(), rest))
}
