ghost use Rattle.std.specs.Prelude.{◌≡◌, ◌++◌, IfOk, OnOk};
ghost use Rattle.report.specs.Text.{sum_of, left_count, count_line, brief_of};

use crate::lines::push_ended;
use crate::numbers::{push_number, push_wide};
use crate::rows::{Left, LeftRow, Rows, ValueRow};
use morty_base::{Ended, List, NoMemory};
use std::alloc::Global;

// The sum of the values, which fits since each has 64 bits and there are fewer than 2^64.
fn value_sum(rows: &[ValueRow]) -> i128
    ensures { result ≡ sum_of rows.now }
{
    let mut sum: i128 = 0;
    for row in rows {
        sum += i128::from(row.value);
    }
    sum
}

// How many transactions were left in the state.
fn left_count(rows: &[LeftRow], state: Left) -> u64
    ensures { result ≡ left_count state rows.now }
{
    let mut count: u64 = 0;
    for row in rows {
        if row.state == state {
            count += 1;
        }
    }
    count
}

#[tactic(auto, unfolding(crate::specs::Text::count_line))]
fn push_count(out: &mut List<u8>, word: &[u8], count: u64) -> Result<(), NoMemory>
    ensures { OnOk result (out.new ≡ out.old ++ count_line word.now count) }
{
    out.extend_from_slice(word)?;
    out.extend_from_slice(b" ")?;
    push_number(out, count)?;
    out.extend_from_slice(b"\n")
}

/// The summary of a run: how many transactions were committed, aborted, left open and never begun, the sum of the
/// values, and the end.
#[tactic(auto, unfolding(crate::specs::Text::brief_of))]
pub fn brief_text(alloc: Global, rows: &Rows, ended: Ended) -> Result<List<u8>, NoMemory>
    ensures { IfOk result (λ text. text ≡ brief_of rows.now ended) }
{
    let left = rows.left.as_slice();
    let mut text = List::new(alloc);
    push_count(&mut text, b"commits", rows.commits.len() as u64)?;
    push_count(&mut text, b"aborted", left_count(left, Left::Aborted))?;
    push_count(&mut text, b"open", left_count(left, Left::Live))?;
    push_count(&mut text, b"unbegun", left_count(left, Left::Unbegun))?;
    text.extend_from_slice(b"sum ")?;
    push_wide(&mut text, value_sum(rows.values.as_slice()))?;
    text.extend_from_slice(b"\n")?;
    push_ended(&mut text, ended, rows.events)?;
    Ok(text)
}
