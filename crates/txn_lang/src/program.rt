ghost use Rattle.std.specs.Prelude.{◌≡◌, length, OnErr};
ghost use Rattle.std.specs.Result.{OkIff};
ghost use Rattle.txn_lang.specs.Tree.{commands};
ghost use Rattle.txn_lang.specs.Limits.{IsWithin};
ghost use Rattle.txn_lang.specs.Form.{IsWellFormed};
ghost use Rattle.txn_lang.specs.Program.{Program, IsProgram};

use crate::limits::is_within;
use crate::tree::Block;
use morty_base::List;
use std::marker::Model;
use thiserror::Error;

/// Why a program is refused.
#[derive(Clone, Copy, Debug, PartialEq, Eq, Error)]
pub enum ProgFault {
    #[error("the program passes a limit")]
    Limit,
    #[error("out of memory")]
    NoMemory,
}

/// A program within the limits, with the names of its locals.
#[derive(Debug, Drop)]
pub struct Prog {
    names: List<List<u8>>,
    body: Block,
}

impl Model for Prog {
    ghost use Rattle.txn_lang.specs.Program.{Program, IsProgram};
    ghost use Rattle.txn_lang.specs.contracts.tree.Stmt as stmt;
    ghost use Rattle.std.specs.Coded.{codes};

    ghost Value = { Program };

    ghost coded = { Prim.hlevel (codes, stmt.the_row.coded) };

    ghost view = { λ p. record { names = p.names; body = p.body } };

    ghost invariant = { λ p. IsProgram (record { names = p.names; body = p.body }) };
}

/// The program with these locals and this body. A limit is passed by more than 64 locals, 4,096 statements (with
/// repeats multiplied out, and both branches of an `if`), 64 reads, writes or prints (with repeats multiplied out,
/// and the greater of two branches), blocks 32 deep, 64 tokens in an expression's canonical text, a repeat number
/// above 4,096, or a local that has no name. It takes no memory.
pub fn make_prog(names: List<List<u8>>, body: Block) -> Result<Prog, ProgFault>
    requires { IsWellFormed names (commands body) }
    ensures made { OkIff result (IsWithin (length names) (commands body)) (record { names = names; body = body }) }
    ensures refused { OnErr result (result ≡ Err ProgFault.Limit) }
{
    if is_within(names.len(), &body) {
        Ok(Prog { names, body })
    } else {
        Err(ProgFault::Limit)
    }
}

impl Prog {
    /// The names of the locals, by number.
    pub fn names(&self) -> &[List<u8>]
        ensures value { result.now ≡ self.now.names }
        ensures kept { IsProgram self.now }
    {
        self.names.as_slice()
    }

    pub fn body(&self) -> &Block
        ensures value { result.now ≡ self.now.body }
        ensures kept { IsProgram self.now }
    {
        &self.body
    }
}
