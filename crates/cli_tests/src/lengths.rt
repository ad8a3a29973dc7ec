//! The script cut off, and with blanks behind it.

use crate::fixture::{EACH_SLOT, PRINTED, REPORT, SCRIPT, SOUND, TOO_LONG, call, listed};
use crate::rows::Words;
use morty_base::{List, NoMemory};
use std::alloc::Global;
use std::test::Fail;

/// The script's front of this length, or the script with blanks behind it up to this length.
fn stretched(alloc: Global, length: usize) -> Result<List<u8>, NoMemory> {
    let mut text = List::new(alloc);
    for byte in SCRIPT.iter().take(length) {
        text.push(*byte)?;
    }
    for _ in SCRIPT.len()..length {
        text.push(b' ')?;
    }
    Ok(text)
}

/// Words, the length of the text, the status, and what is taken.
static LENGTHS: [(Words, usize, u8, &[u8]); 4] = [
    (&[b"run"], 1_048_576, 0, REPORT),
    (&[b"run"], 1_048_577, 3, TOO_LONG),
    (&[b"check"], 1_048_576, 0, PRINTED),
    (&[b"check"], 1_048_577, 3, TOO_LONG),
];

#[test]
fn a_script_is_whole_and_not_too_long(rt: HostRuntime) -> Result<(), Fail> {
    let alloc = rt.alloc();
    let run = listed(alloc, &[b"run".as_slice()])?;
    for length in 0..SCRIPT.len() {
        let text = stretched(alloc, length)?;
        let answer = call(
            &rt,
            alloc,
            run.as_slice(),
            text.as_slice(),
            &SOUND,
            &EACH_SLOT,
        )?;
        assert_eq!(rt; answer.status, 3, "of {length}");
        assert!(rt; answer.journal.is_empty(), "of {length}");
    }
    for (words, length, status, taken) in &LENGTHS {
        let words = listed(alloc, *words)?;
        let text = stretched(alloc, *length)?;
        let answer = call(
            &rt,
            alloc,
            words.as_slice(),
            text.as_slice(),
            &SOUND,
            &EACH_SLOT,
        )?;
        assert_eq!(rt; answer.status, *status, "of {length}");
        assert_eq!(rt; answer.taken.as_slice(), *taken, "of {length}");
    }
    Ok(())
}
