ghost use Rattle.std.specs.Prelude.{◌≡◌, ◌<◌, ◌≤◌, length, IfOk};
ghost use Rattle.txn_parse.specs.Symbols.{lexemes};
ghost use Rattle.txn_parse.specs.Gives.{Gives};
ghost use Rattle.script.specs.Rules.{read, next_symbol};
ghost use Rattle.script.specs.Grammar.{token, behind, signed};

use crate::items::Signed;
use txn_lang::BinOp;
use txn_parse::{Symbol, symbol_of, take};
use txn_text::{TextFault, Token};

/// The symbol of the first token.
pub fn next(text: &[u8], toks: &[Token]) -> Option<Symbol>
    ensures { result ≡ next_symbol (lexemes text.now toks.now) }
{
    match toks.first() {
        Some(token) => Some(symbol_of(text, *token)),
        None => None,
    }
}

/// The wanted token, and the tokens behind it.
#[tactic(auto, using(crate::proofs::Taking::take_is_read))]
pub fn token<'a>(
    text: &[u8],
    last: u32,
    toks: &'a [Token],
    wanted: Symbol,
) -> Result<(Token, &'a [Token]), TextFault>
    ensures found { Gives (λ x. (x.0, lexemes text.now x.1.now)) result (read (token wanted) last (lexemes text.now toks.now)) }
    ensures shorter { IfOk result (λ x. length x.1.now < length toks.now) }
{
    take(text, last, toks, wanted)
}

/// What stands behind this word.
pub fn behind<'a>(
    text: &[u8],
    last: u32,
    toks: &'a [Token],
    word: Symbol,
    wanted: Symbol,
) -> Result<(Token, &'a [Token]), TextFault>
    ensures found { Gives (λ x. (x.0, lexemes text.now x.1.now)) result (read (behind word (token wanted)) last (lexemes text.now toks.now)) }
    ensures shorter { IfOk result (λ x. length x.1.now < length toks.now) }
{
    let (_, rest) = token(text, last, toks, word)?;
    let (found, rest) = token(text, last, rest, wanted)?;
    Ok((found, rest))
}

/// A number that may have a minus.
#[tactic(auto, unfolding(crate::specs::Grammar::signed))]
pub fn signed<'a>(
    text: &[u8],
    last: u32,
    toks: &'a [Token],
) -> Result<(Signed, &'a [Token]), TextFault>
    ensures found { Gives (λ x. (x.0, lexemes text.now x.1.now)) result (read signed last (lexemes text.now toks.now)) }
    ensures shorter { IfOk result (λ x. length x.1.now < length toks.now) }
{
    match toks.split_first() {
        Some((first, rest)) if symbol_of(text, *first) == Symbol::Op(BinOp::Sub) => {
            let (digits, rest) = token(text, last, rest, Symbol::Number)?;
            Ok((
                Signed {
                    minus: true,
                    digits,
                },
                rest,
            ))
        }
        _ => {
            let (digits, rest) = token(text, last, toks, Symbol::Number)?;
            Ok((
                Signed {
                    minus: false,
                    digits,
                },
                rest,
            ))
        }
    }
}
