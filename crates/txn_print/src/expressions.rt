ghost use Rattle.std.specs.Prelude.{◌≡◌, [], ◌∷◌, OnOk};
ghost use Rattle.txn_lang.specs.Tree.{term};
ghost use Rattle.txn_print.specs.Printer.{with_piece, printed};
ghost use Rattle.txn_print.specs.Canonical.{name_at, operator_piece, operand, term_pieces, index_pieces};

use crate::Printer;
use morty_base::{List, NoMemory};
use txn_lang::{BinOp, Expr, left_level, level, operator_level};

/// The name with this number. What has no name is printed as nothing.
pub fn print_name(out: &mut Printer, names: &[List<u8>], at: u16) -> Result<(), NoMemory>
    ensures { OnOk result (out.new ≡ with_piece out.old (name_at names.now at)) }
{
    match names.get(usize::from(at)) {
        Some(name) => out.name(name.as_slice()),
        None => out.name(b""),
    }
}

fn print_operator(out: &mut Printer, op: BinOp) -> Result<(), NoMemory>
    ensures { OnOk result (out.new ≡ with_piece out.old (operator_piece op)) }
{
    match op {
        BinOp::Add => out.symbol(b"+"),
        BinOp::Sub => out.symbol(b"-"),
        BinOp::Mul => out.symbol(b"*"),
        BinOp::Div => out.symbol(b"/"),
        BinOp::Rem => out.symbol(b"%"),
        BinOp::Eq => out.symbol(b"=="),
        BinOp::Ne => out.symbol(b"!="),
        BinOp::Lt => out.symbol(b"<"),
        BinOp::Le => out.symbol(b"<="),
        BinOp::Gt => out.symbol(b">"),
        BinOp::Ge => out.symbol(b">="),
        BinOp::And => out.word(b"and"),
        BinOp::Or => out.word(b"or"),
    }
}

// An operand, in parentheses where it binds looser than `least`.
#[cycle(expressions)]
#[tactic(auto, using(crate::proofs::PrinterLemmas::printed_append))]
fn print_operand(
    out: &mut Printer,
    locals: &[List<u8>],
    e: &Expr,
    least: u64,
) -> Result<(), NoMemory>
    ensures { OnOk result (out.new ≡ printed out.old (operand least (term e.now) (term_pieces locals.now (term e.now)))) }
{
    if level(e) < least {
        out.symbol(b"(")?;
        print_expression(out, locals, e)?;
        out.symbol(b")")
    } else {
        print_expression(out, locals, e)
    }
}

/// An expression with the parentheses that it needs.
#[cycle(expressions)]
#[tactic(auto, using(crate::proofs::PrinterLemmas::printed_append))]
pub fn print_expression(out: &mut Printer, locals: &[List<u8>], e: &Expr) -> Result<(), NoMemory>
    ensures { OnOk result (out.new ≡ printed out.old (term_pieces locals.now (term e.now))) }
{
    match e {
        Expr::Num(n) => out.number(n.unsigned_abs()),
        Expr::Local(v) => print_name(out, locals, *v),
        Expr::Neg(a) => {
            out.sign()?;
            print_operand(out, locals, a.get(), 6)
        }
        Expr::Not(a) => {
            out.word(b"not")?;
            print_operand(out, locals, a.get(), 6)
        }
        Expr::Bin(op, operands) => {
            let (a, b) = operands.get();
            print_operand(out, locals, a, left_level(*op))?;
            print_operator(out, *op)?;
            print_operand(out, locals, b, operator_level(*op) + 1)
        }
    }
}

/// A key's index in its brackets.
#[tactic(auto, using(crate::proofs::PrinterLemmas::printed_append))]
pub fn print_index(out: &mut Printer, locals: &[List<u8>], index: &Expr) -> Result<(), NoMemory>
    ensures { OnOk result (out.new ≡ printed out.old (index_pieces locals.now (term index.now))) }
{
    out.symbol(b"[")?;
    print_expression(out, locals, index)?;
    out.symbol(b"]")
}
