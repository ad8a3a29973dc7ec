//! Calls of the program one by one.

use crate::by_workers::OF_WORKERS;
use crate::generated::OF_SEVEN_AND_ONE;
use crate::printed::{CHECKS, TRACES};
use crate::refusals::{OF_TEXTS, OF_THE_OUTSIDE, OF_TRANSACTIONS, OF_WORDS};
use crate::rows::Row;
use crate::runs::{OF_FORMS, OF_ONE_SCRIPT, OF_SCRIPTS};
use crate::serials::SERIALS;
use std::test::Fail;

#[test]
fn calls_are_answered(rt: HostRuntime) -> Result<(), Fail> {
    let tables: [&'static [Row]; 12] = [
        &OF_ONE_SCRIPT,
        &OF_SCRIPTS,
        &OF_FORMS,
        &OF_WORDS,
        &OF_TRANSACTIONS,
        &OF_TEXTS,
        &OF_THE_OUTSIDE,
        &CHECKS,
        &TRACES,
        &OF_SEVEN_AND_ONE,
        &SERIALS,
        &OF_WORKERS,
    ];
    for table in tables {
        for row in table {
            let answer = row.answer(&rt, rt.alloc())?;
            let taken = answer.taken.as_slice();
            let text = str::from_utf8(taken).unwrap_or("no text");
            assert_eq!(rt; answer.status, row.status, "{}", row.shows);
            assert!(rt; row.taken.is_met(taken), "{}: {text}", row.shows);
            if let Some(events) = row.events {
                assert_eq!(rt; answer.journal.as_slice(), events, "{}", row.shows);
            }
            if let Some(links) = row.links {
                assert_eq!(rt; answer.links, links, "{}", row.shows);
            }
        }
    }
    Ok(())
}
