//! Generated scripts.

use crate::fixture::{BLIND, EACH_SLOT, SOUND, call, listed};
use crate::rows::Taken::All;
use crate::rows::{CHECK, Row, UNRUN, Words};
use std::test::Fail;

/// The script of seed 7 and size 1. The draws are those of the public algorithm for state 7 and stream 54.
const SEVEN_AND_ONE: Row = Row {
    shows: "a seed and a size give one script",
    words: &[b"gen", b"7", b"1"],
    text: b"",
    outside: BLIND,
    taken: All(
        b"morty 1\n\
        replicas 3\n\
        wardens 1\n\
        tries 8\n\
        execs 16\n\
        gap 1000\n\
        turns 20000\n\
        policy rewind\n\
        table acct\n\
        first acct[1] 100\nfirst acct[2] 100\nfirst acct[3] 100\nfirst acct[4] 100\n\
        first acct[5] 100\nfirst acct[6] 100\nfirst acct[7] 100\nfirst acct[8] 100\n\
        first acct[9] 100\nfirst acct[10] 100\nfirst acct[11] 100\nfirst acct[12] 100\n\
        first acct[13] 100\nfirst acct[14] 100\nfirst acct[15] 100\nfirst acct[16] 100\n\
        first acct[17] 100\nfirst acct[18] 100\nfirst acct[19] 100\nfirst acct[20] 100\n\
        first acct[21] 100\nfirst acct[22] 100\nfirst acct[23] 100\nfirst acct[24] 100\n\
        first acct[25] 100\nfirst acct[26] 100\nfirst acct[27] 100\nfirst acct[28] 100\n\
        first acct[29] 100\nfirst acct[30] 100\nfirst acct[31] 100\nfirst acct[32] 100\n\
        first acct[33] 100\nfirst acct[34] 100\nfirst acct[35] 100\nfirst acct[36] 100\n\
        first acct[37] 100\nfirst acct[38] 100\nfirst acct[39] 100\nfirst acct[40] 100\n\
        first acct[41] 100\nfirst acct[42] 100\nfirst acct[43] 100\nfirst acct[44] 100\n\
        first acct[45] 100\nfirst acct[46] 100\nfirst acct[47] 100\nfirst acct[48] 100\n\
        first acct[49] 100\nfirst acct[50] 100\n\
        program p1 { read a acct[4]; if a < 2 { abort }; read b acct[24]; write acct[4] a - 2; write acct[24] b + 2; print a - 2 }\n\
        client 1 { p1 at 10 }\n\
        client 2 { }\n\
        client 3 { }\n\
        client 4 { }\n\
        client 5 { }\n\
        client 6 { }\n\
        client 7 { }\n\
        client 8 { }\n\
        net seeded 7 late 10 repeat 10 hurry 5\n\
        at 500 client 8 stop\n\
        end\n",
    ),
    ..UNRUN
};

pub static OF_SEVEN_AND_ONE: [Row; 3] = [
    SEVEN_AND_ONE,
    Row {
        shows: "and the same again",
        ..SEVEN_AND_ONE
    },
    Row {
        shows: "they may have leading zeros",
        words: &[b"gen", b"007", b"01"],
        ..SEVEN_AND_ONE
    },
];

static READ_BACK: [Words; 3] = [
    &[b"gen", b"7", b"1"],
    &[b"gen", b"11", b"40"],
    &[b"gen", b"9223372036854775807", b"512"],
];

#[test]
fn generated_scripts_are_checked_unchanged(rt: HostRuntime) -> Result<(), Fail> {
    let alloc = rt.alloc();
    let check = listed(alloc, CHECK.words)?;
    for words in &READ_BACK {
        let words = listed(alloc, *words)?;
        let made = call(&rt, alloc, words.as_slice(), b"", &SOUND, &EACH_SLOT)?;
        assert_eq!(rt; made.status, 0);
        let text = made.taken.as_slice();
        let read = call(&rt, alloc, check.as_slice(), text, &SOUND, &EACH_SLOT)?;
        assert_eq!(rt; read.status, 0);
        assert_eq!(rt; read.taken.as_slice(), text);
    }
    Ok(())
}
