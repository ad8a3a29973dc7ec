use script::{one_outcome, read_script, script_text};
use std::test::Fail;

// Texts, and what is printed of the scripts that they say.
const ROWS: [(&[u8], &[u8]); 2] = [
    (
        b"morty 1 replicas 1 table x first x[1] 4 program inc{read a x[1];write x[1] (a)+1;print a;} client 1{inc at 10} end",
        b"morty 1\nreplicas 1\nwardens 0\ntries 3\nexecs 16\ngap 1\nturns 5000\npolicy rewind\ntable x\nfirst x[1] 4\nprogram inc { read a x[1]; write x[1] a + 1; print a }\nclient 1 { inc at 10 }\nnet fair\nend\n",
    ),
    (
        b"morty 01 turns 20000 policy abort wardens 2 replicas 5 tries 8 execs 64 gap 1000000 client 1 { } net seeded 9223372036854775807 late 100 repeat 0 hurry 100 at 14 warden 2 truncate 20.0 at 5 client 1 recover 10.1 4294967295 end",
        b"morty 1\nreplicas 5\nwardens 2\ntries 8\nexecs 64\ngap 1000000\nturns 20000\npolicy abort\nclient 1 { }\nnet seeded 9223372036854775807 late 100 repeat 0 hurry 100\nat 14 warden 2 truncate 20.0\nat 5 client 1 recover 10.1 4294967295\nend\n",
    ),
];

#[test]
fn scripts_are_printed_canonically(rt: HostRuntime) -> Result<(), Fail> {
    one_outcome();
    for (text, printed) in ROWS {
        assert!(rt; text.len() < 4000);
        match read_script(rt.alloc(), text) {
            Ok(setup) => {
                let again = script_text(rt.alloc(), &setup)?;
                assert!(rt; again.as_slice() == printed);
            }
            Err(_) => panic!(rt; "no script was read"),
        }
    }
    Ok(())
}
