use morty_base::Version;
use txn_lang::Prog;

/// A program that is to run at a version, as this transaction of the version's client. Transactions are counted from 1.
#[derive(Clone, Copy)]
pub struct Versioned<'a> {
    pub ver: Version,
    pub txn: u32,
    pub prog: &'a Prog,
}
