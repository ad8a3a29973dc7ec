ghost use Rattle.std.specs.Prelude.{◌≡◌, ◌≤◌, length, MatchOption};
ghost use Rattle.txn_parse.specs.Symbols.{Lexeme, lexemes};
ghost use Rattle.txn_parse.specs.Counts.{in_expression, one_counted, told};
ghost use Rattle.txn_parse.specs.Faults.{IsWithinLimits, IsFirstPast, IsCut};

use crate::symbols::{Symbol, symbol_of};
use txn_lang::{DEEPEST_BLOCK, LONGEST_EXPRESSION};
use txn_text::{FaultKind, TextFault, Token};

/// How many blocks are open, and how many tokens of expressions stand in a row.
#[derive(Clone, Copy, Debug, PartialEq, Eq)]
pub struct Count {
    pub depth: u64,
    pub run: u64,
}

fn in_expression(symbol: Symbol) -> bool
    ensures { result ≡ in_expression symbol }
{
    matches!(
        symbol,
        Symbol::Name
            | Symbol::Number
            | Symbol::Not
            | Symbol::Op(_)
            | Symbol::OpenParen
            | Symbol::CloseParen
    )
}

// The counts behind a token, or the limit that it is past.
fn counted(count: Count, symbol: Symbol) -> Result<Count, FaultKind>
    ensures { (l : Lexeme) → one_counted count.depth count.run l symbol ≡ told result l }
{
    let Count { depth, run } = count;
    match symbol {
        Symbol::OpenBlock if depth < DEEPEST_BLOCK => Ok(Count {
            depth: depth + 1,
            run: 0,
        }),
        Symbol::OpenBlock => Err(FaultKind::Deep),
        Symbol::CloseBlock => Ok(Count {
            depth: depth.saturating_sub(1),
            run: 0,
        }),
        _ if !in_expression(symbol) => Ok(Count { depth, run: 0 }),
        _ if run < LONGEST_EXPRESSION => Ok(Count {
            depth,
            run: run + 1,
        }),
        _ => Err(FaultKind::LongExpression),
    }
}

/// The place of the first token past a limit, and its fault: the 33rd block in one another, or the 65th token of an
/// expression.
pub fn first_past(text: &[u8], toks: &[Token]) -> Option<(usize, FaultKind)>
    ensures { MatchOption result (IsWithinLimits (lexemes text.now toks.now)) (λ x. IsFirstPast (lexemes text.now toks.now) x.0 x.1) }
{
    let mut count = Count { depth: 0, run: 0 };
    for (at, token) in toks.iter().enumerate() {
        match counted(count, symbol_of(text, *token)) {
            Ok(next) => count = next,
            Err(kind) => return Some((at, kind)),
        }
    }
    None
}

/// The tokens that tell what block stands in front: up to the one that leaves no block open, or up to the first past a
/// limit, with its fault, or all of them.
pub fn block_front<'a>(text: &[u8], toks: &'a [Token]) -> (&'a [Token], Option<TextFault>)
    ensures cut { IsCut (lexemes text.now toks.now) (lexemes text.now result.0.now) result.1 }
    ensures no_longer { length result.0.now ≤ length toks.now }
{
    let mut count = Count { depth: 0, run: 0 };
    for (at, token) in toks.iter().enumerate() {
        match counted(count, symbol_of(text, *token)) {
            Ok(next) if next.depth == 0 => return (&toks[..at + 1], None),
            Ok(next) => count = next,
            Err(kind) => {
                let limit = TextFault::At {
                    line: token.line,
                    kind,
                };
                return (&toks[..at + 1], Some(limit));
            }
        }
    }
    (toks, None)
}
