use crate::programs::{FIVE, PAY, TWICE, program};
use morty_base::{Ending, Key, NoMemory};
use serial_runs::{Entry, Map, SerialRun, Stop, run_on_answers, run_on_map};
use std::alloc::Global;
use std::process::Abort;
use std::test::Fail;

fn x(index: i64) -> Key {
    Key { table: 0, index }
}

// These values at x[1], x[2] and on.
fn cells(alloc: Global, values: &[i64]) -> Result<Map, NoMemory> {
    let mut cells = Map::new(alloc);
    let mut index = 0i64;
    for value in values {
        index = index.wrapping_add(1);
        cells.insert(x(index), *value)?;
    }
    Ok(cells)
}

// An entry of x.
fn entry(index: i64, value: i64) -> Entry {
    Entry {
        key: x(index),
        value,
    }
}

// The run on a map of the program that a text says, and the map after it.
fn ran(alloc: Global, rt: &impl Abort, text: &[u8], cells: Map) -> Result<(SerialRun, Map), Fail> {
    let prog = program(alloc, rt, text)?;
    Ok(run_on_map(alloc, &prog, cells)?)
}

#[test]
fn sums_five_cells(rt: HostRuntime) -> Result<(), Fail> {
    let alloc = rt.alloc();
    let (run, _) = ran(alloc, &rt, FIVE, cells(alloc, &[1, 2, 30, 4, 5])?)?;
    let reads = [
        entry(1, 1),
        entry(2, 2),
        entry(3, 30),
        entry(4, 4),
        entry(5, 5),
    ];
    assert_eq!(rt; run.did.reads.as_slice(), reads.as_slice());
    assert_eq!(rt; run.did.out.as_slice(), [42].as_slice());
    assert_eq!(rt; run.did.begun, 19);
    assert_eq!(rt; run.ending, Ending::Done);
    Ok(())
}

#[test]
fn gives_up_on_a_low_amount(rt: HostRuntime) -> Result<(), Fail> {
    let alloc = rt.alloc();
    let (run, cells) = ran(alloc, &rt, PAY, cells(alloc, &[4])?)?;
    assert_eq!(rt; run.did.reads.as_slice(), [entry(1, 4)].as_slice());
    assert_eq!(rt; run.did.writes.as_slice(), [entry(2, 1)].as_slice());
    assert_eq!(rt; run.ending, Ending::Abort);
    assert_eq!(rt; cells.get(x(1)), 4);
    assert_eq!(rt; cells.get(x(2)), 0);
    Ok(())
}

#[test]
fn asks_for_a_key_once(rt: HostRuntime) -> Result<(), Fail> {
    let alloc = rt.alloc();
    let prog = program(alloc, &rt, TWICE)?;
    let asked = run_on_answers(alloc, &prog, &[])?;
    assert_eq!(rt; asked.stop, Stop::Asks(x(1)));
    let told = run_on_answers(alloc, &prog, &[7, 8])?;
    assert_eq!(rt; told.did.reads.as_slice(), [entry(1, 7)].as_slice());
    assert_eq!(rt; told.did.out.as_slice(), [7].as_slice());
    assert_eq!(rt; told.stop, Stop::Ends(Ending::Done));
    Ok(())
}

#[test]
fn runs_one_after_another(rt: HostRuntime) -> Result<(), Fail> {
    let alloc = rt.alloc();
    let (_, cells) = ran(alloc, &rt, PAY, cells(alloc, &[30])?)?;
    let (run, cells) = ran(alloc, &rt, TWICE, cells)?;
    assert_eq!(rt; cells.get(x(1)), 20);
    assert_eq!(rt; run.did.out.as_slice(), [20].as_slice());
    Ok(())
}

// A map with 1 at so many places of x from 0 on.
fn ones(alloc: Global, places: i64) -> Result<Map, NoMemory> {
    let mut cells = Map::new(alloc);
    for index in 0..places {
        cells.insert(x(index), 1)?;
    }
    Ok(cells)
}

#[test]
fn a_great_map_is_searched(rt: HostRuntime) -> Result<(), Fail> {
    let mut cells = ones(rt.alloc(), 300_000)?;
    cells.insert(x(7), 5)?;
    for (index, want) in [(0, 1), (7, 5), (299_999, 1), (300_000, 0)] {
        assert_eq!(rt; cells.get(x(index)), want);
    }
    Ok(())
}
