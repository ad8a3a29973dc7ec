ghost use Rattle.std.specs.Prelude.{◌≡◌, ◌++◌, OnOk, flat_map};
ghost use Rattle.report.specs.Text.{head_text, try_text, end_text, ending_text, content_text, commit_block, serial_block};

use crate::lines::{push_out, push_reads, push_version};
use crate::numbers::push_number;
use crate::rows::CommitRow;
use morty_base::{Ending, List, NoMemory};

#[tactic(auto, unfolding(crate::specs::Text::head_text))]
fn push_head(out: &mut List<u8>, word: &[u8], row: &CommitRow) -> Result<(), NoMemory>
    ensures { OnOk result (out.new ≡ out.old ++ head_text word.now row.now) }
{
    out.extend_from_slice(word)?;
    out.extend_from_slice(b" ")?;
    push_version(out, row.exec.ver)?;
    out.extend_from_slice(b" txn ")?;
    push_number(out, u64::from(row.exec.ver.client))?;
    out.extend_from_slice(b".")?;
    push_number(out, u64::from(row.txn))
}

#[tactic(auto, unfolding(crate::specs::Text::try_text))]
fn push_try(out: &mut List<u8>, row: &CommitRow) -> Result<(), NoMemory>
    ensures { OnOk result (out.new ≡ out.old ++ try_text row.now) }
{
    out.extend_from_slice(b" try ")?;
    push_number(out, u64::from(row.attempt))?;
    out.extend_from_slice(b" exec ")?;
    push_number(out, u64::from(row.exec.eid))
}

fn ending_word(ending: Ending) -> &'static [u8]
    ensures { result.now ≡ ending_text ending }
{
    match ending {
        Ending::Done => b"done",
        Ending::Abort => b"abort",
        Ending::Overflow => b"overflow",
        Ending::ZeroDivisor => b"zero divisor",
    }
}

#[tactic(auto, unfolding(crate::specs::Text::end_text))]
fn push_end(out: &mut List<u8>, ending: Ending) -> Result<(), NoMemory>
    ensures { OnOk result (out.new ≡ out.old ++ end_text ending) }
{
    out.extend_from_slice(b" end ")?;
    out.extend_from_slice(ending_word(ending))?;
    out.extend_from_slice(b"\n")
}

#[tactic(auto, unfolding(crate::specs::Text::content_text))]
fn push_content(out: &mut List<u8>, tables: &[List<u8>], row: &CommitRow) -> Result<(), NoMemory>
    ensures { OnOk result (out.new ≡ out.old ++ content_text tables.now row.now) }
{
    push_reads(out, tables, row.reads.as_slice())?;
    push_out(out, row.out.as_slice())
}

#[tactic(auto, unfolding(crate::specs::Text::commit_block))]
fn push_commit(out: &mut List<u8>, tables: &[List<u8>], row: &CommitRow) -> Result<(), NoMemory>
    ensures { OnOk result (out.new ≡ out.old ++ commit_block tables.now row.now) }
{
    push_head(out, b"commit", row)?;
    push_try(out, row)?;
    push_end(out, row.ending)?;
    push_content(out, tables, row)
}

#[tactic(auto, unfolding(crate::specs::Text::serial_block))]
fn push_serial(out: &mut List<u8>, tables: &[List<u8>], row: &CommitRow) -> Result<(), NoMemory>
    ensures { OnOk result (out.new ≡ out.old ++ serial_block tables.now row.now) }
{
    push_head(out, b"serial", row)?;
    push_end(out, row.ending)?;
    push_content(out, tables, row)
}

pub(crate) fn push_commits(
    out: &mut List<u8>,
    tables: &[List<u8>],
    rows: &[CommitRow],
) -> Result<(), NoMemory>
    ensures { OnOk result (out.new ≡ out.old ++ flat_map (commit_block tables.now) rows.now) }
{
    for row in rows {
        push_commit(out, tables, row)?;
    }
    Ok(())
}

pub(crate) fn push_serials(
    out: &mut List<u8>,
    tables: &[List<u8>],
    rows: &[CommitRow],
) -> Result<(), NoMemory>
    ensures { OnOk result (out.new ≡ out.old ++ flat_map (serial_block tables.now) rows.now) }
{
    for row in rows {
        push_serial(out, tables, row)?;
    }
    Ok(())
}
