ghost use Rattle.std.specs.Prelude.{◌≡◌, ◌<◌, ℕ, List, length, IfOk};
ghost use Rattle.txn_parse.specs.Symbols.{lexemes};
ghost use Rattle.txn_parse.specs.Reading.{syntax_at, take_at};
ghost use Rattle.txn_parse.specs.Gives.{Gives};

use crate::symbols::{Symbol, is, symbol_of};
use txn_text::{FaultKind, TextFault, Token};

/// The fault at the first of the tokens, or at the end of the text, whose last line is `last`.
pub fn syntax(last: u32, toks: &[Token]) -> TextFault
    ensures { (text : List ℕ) → result ≡ syntax_at last (lexemes text toks.now) }
{
    match toks.first() {
        Some(token) => TextFault::At {
            line: token.line,
            kind: FaultKind::Syntax,
        },
        None => TextFault::At {
            line: last,
            kind: FaultKind::EndOfText,
        },
    }
}

/// The wanted token, and the tokens behind it.
pub fn take<'a>(
    text: &[u8],
    last: u32,
    toks: &'a [Token],
    wanted: Symbol,
) -> Result<(Token, &'a [Token]), TextFault>
    ensures found { Gives (λ x. (x.0, lexemes text.now x.1.now)) result (take_at last wanted (lexemes text.now toks.now)) }
    ensures shorter { IfOk result (λ x. length x.1.now < length toks.now) }
{
    match toks.split_first() {
        Some((token, rest)) if is(symbol_of(text, *token), wanted) => Ok((*token, rest)),
        _ => Err(syntax(last, toks)),
    }
}
