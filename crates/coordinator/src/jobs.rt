//! When two jobs are the same.

ghost use Rattle.std.specs.Prelude.{◌≡◌, ◌↔◌, IsTrue};

use continuation::{Cont, Job, JobAt, Known};

fn are_same_numbers(a: &[u32], b: &[u32]) -> bool
    ensures { IsTrue result ↔ (a.now ≡ b.now) }
{
    a == b
}

fn are_same_values(a: &[i64], b: &[i64]) -> bool
    ensures { IsTrue result ↔ (a.now ≡ b.now) }
{
    a == b
}

fn is_same_cont(a: &Cont, b: &Cont) -> bool
    ensures { IsTrue result ↔ (a.now ≡ b.now) }
{
    a.pc == b.pc
        && are_same_numbers(a.loops.as_slice(), b.loops.as_slice())
        && are_same_values(a.locals.as_slice(), b.locals.as_slice())
}

fn is_same_known(a: &[Known], b: &[Known]) -> bool
    ensures { IsTrue result ↔ (a.now ≡ b.now) }
{
    a == b
}

/// Whether two jobs begin at the same place.
pub(crate) fn is_same_place(a: &JobAt, b: &JobAt) -> bool
    ensures { IsTrue result ↔ (a.now ≡ b.now) }
{
    match (a, b) {
        (JobAt::Start, JobAt::Start) => true,
        (
            JobAt::From { cont, value, known },
            JobAt::From {
                cont: other_cont,
                value: other_value,
                known: other_known,
            },
        ) => {
            *value == *other_value
                && is_same_cont(cont, other_cont)
                && is_same_known(known.as_slice(), other_known.as_slice())
        }
        _ => false,
    }
}

/// Whether two jobs are the same.
pub fn is_same_job(a: &Job, b: &Job) -> bool
    ensures { IsTrue result ↔ (a.now ≡ b.now) }
{
    a.client == b.client && a.prog == b.prog && a.serial == b.serial && is_same_place(&a.at, &b.at)
}
