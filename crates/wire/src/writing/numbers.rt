//! Bytes and numbers, big-endian.

ghost use Rattle.wire.specs.Outcome.{Adds};
ghost use Rattle.wire.specs.Field.{u8, u16, u32, u64, i64};

use byteorder::{BigEndian, ByteOrder};
use bytes::BytesMut;
use morty_base::NoMemory;

#[tactic(auto, unfolding(crate::specs::Field::u8))]
pub(crate) fn put_byte(out: &mut BytesMut, byte: u8) -> Result<(), NoMemory>
    ensures { Adds u8 byte result out.old.items out.new.items }
{
    out.extend_from_slice(&[byte])?;
    Ok(())
}

#[tactic(auto, unfolding(crate::specs::Field::u16))]
pub(crate) fn put_u16(out: &mut BytesMut, number: u16) -> Result<(), NoMemory>
    ensures { Adds u16 number result out.old.items out.new.items }
{
    let mut bytes = [0; 2];
    BigEndian::write_u16(&mut bytes, number);
    out.extend_from_slice(&bytes)?;
    Ok(())
}

#[tactic(auto, unfolding(crate::specs::Field::u32))]
pub(crate) fn put_u32(out: &mut BytesMut, number: u32) -> Result<(), NoMemory>
    ensures { Adds u32 number result out.old.items out.new.items }
{
    let mut bytes = [0; 4];
    BigEndian::write_u32(&mut bytes, number);
    out.extend_from_slice(&bytes)?;
    Ok(())
}

#[tactic(auto, unfolding(crate::specs::Field::u64))]
pub(crate) fn put_u64(out: &mut BytesMut, number: u64) -> Result<(), NoMemory>
    ensures { Adds u64 number result out.old.items out.new.items }
{
    let mut bytes = [0; 8];
    BigEndian::write_u64(&mut bytes, number);
    out.extend_from_slice(&bytes)?;
    Ok(())
}

#[tactic(auto, unfolding(crate::specs::Field::i64))]
pub(crate) fn put_i64(out: &mut BytesMut, number: i64) -> Result<(), NoMemory>
    ensures { Adds i64 number result out.old.items out.new.items }
{
    put_u64(out, number.cast_unsigned())
}
