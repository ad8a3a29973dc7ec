use crate::blocks::read;
use morty_base::List;
use std::alloc::Global;
use std::process::Abort;
use std::test::Fail;
use txn_lang::Prog;
use txn_parse::resolve_prog;

pub(crate) const FIVE: &[u8] =
    b"{ let s = 0; let i = 1; repeat 5 { read a x[i]; let s = s + a; let i = i + 1 }; print s }";

pub(crate) const PAY: &[u8] =
    b"{ read a x[1]; if a < 10 { write x[2] 1; abort }; write x[1] a - 10; print a }";

pub(crate) const TWICE: &[u8] = b"{ read a x[1]; read b x[1]; print b }";

// The program that a text says, whose one table is x.
pub(crate) fn program(alloc: Global, rt: &impl Abort, text: &[u8]) -> Result<Prog, Fail> {
    let (prog, _) = read(alloc, rt, text)?;
    let tables = [List::from_slice(alloc, b"x")?];
    Ok(resolve_prog(alloc, text, &prog, &tables)?)
}
