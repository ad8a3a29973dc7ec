ghost use Rattle.std.specs.Prelude.{◌≡◌, IfOk};
ghost use Rattle.report.specs.Text.{report_of, serial_of};

use crate::blocks::{push_commits, push_serials};
use crate::lines::{push_ended, push_lefts, push_values};
use crate::rows::Rows;
use morty_base::{Ended, List, NoMemory};
use std::alloc::Global;

/// The report of a run. A table without a name in `tables` is written as nothing.
#[tactic(auto, unfolding(crate::specs::Text::report_of))]
pub fn report_text(
    alloc: Global,
    tables: &[List<u8>],
    rows: &Rows,
    ended: Ended,
) -> Result<List<u8>, NoMemory>
    ensures { IfOk result (λ text. text ≡ report_of tables.now rows.now ended) }
{
    let mut text = List::new(alloc);
    push_commits(&mut text, tables, rows.commits.as_slice())?;
    push_lefts(&mut text, rows.left.as_slice())?;
    push_values(&mut text, tables, rows.values.as_slice())?;
    push_ended(&mut text, ended, rows.events)?;
    Ok(text)
}

/// The text of a serial run. A table without a name in `tables` is written as nothing.
#[tactic(auto, unfolding(crate::specs::Text::serial_of))]
pub fn serial_text(alloc: Global, tables: &[List<u8>], rows: &Rows) -> Result<List<u8>, NoMemory>
    ensures { IfOk result (λ text. text ≡ serial_of tables.now rows.now) }
{
    let mut text = List::new(alloc);
    push_serials(&mut text, tables, rows.commits.as_slice())?;
    push_values(&mut text, tables, rows.values.as_slice())?;
    Ok(text)
}
