ghost use Rattle.std.specs.Prelude.{◌≡◌, ◌++◌, [], OnOk, flat_map, unwrap_or, slice_get};
ghost use Rattle.report.specs.Text.{version_text, key_text, cell_line, read_line, out_line, left_text, left_line, value_line, kind_text, ended_line};

use crate::numbers::{push_integer, push_number};
use crate::rows::{Left, LeftRow, ValueRow};
use morty_base::{Ended, Key, List, NoMemory, Version};
use msg::Read;

pub(crate) fn push_version(out: &mut List<u8>, v: Version) -> Result<(), NoMemory>
    ensures { OnOk result (out.new ≡ out.old ++ version_text v) }
{
    push_number(out, v.ts)?;
    out.extend_from_slice(b".")?;
    push_number(out, u64::from(v.client))
}

fn push_table(out: &mut List<u8>, tables: &[List<u8>], table: u16) -> Result<(), NoMemory>
    ensures { OnOk result (out.new ≡ out.old ++ unwrap_or (slice_get tables.now table) []) }
{
    match tables.get(usize::from(table)) {
        Some(name) => out.extend_from_slice(name.as_slice()),
        None => Ok(()),
    }
}

fn push_key(out: &mut List<u8>, tables: &[List<u8>], key: Key) -> Result<(), NoMemory>
    ensures { OnOk result (out.new ≡ out.old ++ key_text tables.now key) }
{
    push_table(out, tables, key.table)?;
    out.extend_from_slice(b"[")?;
    push_integer(out, key.index)?;
    out.extend_from_slice(b"]")
}

#[tactic(auto, unfolding(crate::specs::Text::cell_line))]
fn push_cell(
    out: &mut List<u8>,
    tables: &[List<u8>],
    word: &[u8],
    key: Key,
    value: i64,
) -> Result<(), NoMemory>
    ensures { OnOk result (out.new ≡ out.old ++ cell_line tables.now word.now key value) }
{
    out.extend_from_slice(word)?;
    out.extend_from_slice(b" ")?;
    push_key(out, tables, key)?;
    out.extend_from_slice(b" ")?;
    push_integer(out, value)?;
    out.extend_from_slice(b"\n")
}

pub(crate) fn push_reads(
    out: &mut List<u8>,
    tables: &[List<u8>],
    reads: &[Read],
) -> Result<(), NoMemory>
    ensures { OnOk result (out.new ≡ out.old ++ flat_map (read_line tables.now) reads.now) }
{
    for read in reads {
        push_cell(out, tables, b"read", read.key, read.value)?;
    }
    Ok(())
}

pub(crate) fn push_out(out: &mut List<u8>, values: &[i64]) -> Result<(), NoMemory>
    ensures { OnOk result (out.new ≡ out.old ++ flat_map out_line values.now) }
{
    for value in values {
        push_out_line(out, *value)?;
    }
    Ok(())
}

#[tactic(auto, unfolding(crate::specs::Text::out_line))]
fn push_out_line(out: &mut List<u8>, value: i64) -> Result<(), NoMemory>
    ensures { OnOk result (out.new ≡ out.old ++ out_line value) }
{
    out.extend_from_slice(b"out ")?;
    push_integer(out, value)?;
    out.extend_from_slice(b"\n")
}

fn left_word(state: Left) -> &'static [u8]
    ensures { result.now ≡ left_text state }
{
    match state {
        Left::Live => b"open",
        Left::Aborted => b"aborted",
        Left::Unbegun => b"unbegun",
    }
}

#[tactic(auto, unfolding(crate::specs::Text::left_line))]
fn push_left(out: &mut List<u8>, row: &LeftRow) -> Result<(), NoMemory>
    ensures { OnOk result (out.new ≡ out.old ++ left_line row.now) }
{
    out.extend_from_slice(b"none ")?;
    push_number(out, u64::from(row.client))?;
    out.extend_from_slice(b".")?;
    push_number(out, u64::from(row.txn))?;
    out.extend_from_slice(b" ")?;
    out.extend_from_slice(left_word(row.state))?;
    out.extend_from_slice(b"\n")
}

pub(crate) fn push_lefts(out: &mut List<u8>, rows: &[LeftRow]) -> Result<(), NoMemory>
    ensures { OnOk result (out.new ≡ out.old ++ flat_map left_line rows.now) }
{
    for row in rows {
        push_left(out, row)?;
    }
    Ok(())
}

pub(crate) fn push_values(
    out: &mut List<u8>,
    tables: &[List<u8>],
    rows: &[ValueRow],
) -> Result<(), NoMemory>
    ensures { OnOk result (out.new ≡ out.old ++ flat_map (value_line tables.now) rows.now) }
{
    for row in rows {
        push_cell(out, tables, b"value", row.key, row.value)?;
    }
    Ok(())
}

fn kind_word(ended: Ended) -> &'static [u8]
    ensures { result.now ≡ kind_text ended }
{
    match ended {
        Ended::Quiet => b"quiet",
        Ended::Spent => b"spent",
        Ended::Full => b"full",
    }
}

#[tactic(auto, unfolding(crate::specs::Text::ended_line))]
pub(crate) fn push_ended(out: &mut List<u8>, ended: Ended, events: u64) -> Result<(), NoMemory>
    ensures { OnOk result (out.new ≡ out.old ++ ended_line ended events) }
{
    out.extend_from_slice(b"ended ")?;
    out.extend_from_slice(kind_word(ended))?;
    out.extend_from_slice(b" events ")?;
    push_number(out, events)?;
    out.extend_from_slice(b"\n")
}
