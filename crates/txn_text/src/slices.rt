ghost use Rattle.std.specs.Prelude.{◌≡◌, ◌↔◌, IsTrue};
ghost use Rattle.txn_text.specs.Bytes.{number_value_of};
ghost use Rattle.txn_text.specs.Tokens.{token_bytes};
ghost use Rattle.txn_text.specs.Kinds.{TokensLieInOrder};
ghost use Rattle.txn_text.specs.Layout.{LaidOutIsRead};

use crate::Token;
use crate::bytes::number;

/// The bytes of a token of the text.
pub fn token_text(text: &[u8], token: Token) -> &[u8]
    ensures { result.now ≡ token_bytes text.now token }
{
    let end = (token.end as usize).min(text.len());
    let start = (token.start as usize).min(end);
    &text[start..end]
}

/// Whether the token is this word or symbol.
pub fn is_text(text: &[u8], token: Token, word: &[u8]) -> bool
    ensures { IsTrue result ↔ (token_bytes text.now token ≡ word.now) }
{
    token_text(text, token) == word
}

/// The number that a token of digits stands for. It is 0 for digits of a number too large for a token.
pub fn number_value(text: &[u8], token: Token) -> u64
    ensures { result ≡ number_value_of (token_bytes text.now token) }
{
    number(token_text(text, token)).unwrap_or(0)
}

/// Each token of a text lies within the text behind the token before it, has the line of its first byte, and its
/// bytes are of its kind.
pub fn token_laws()
    ensures { TokensLieInOrder }
{}

/// Tokens that lie in a text between blanks and comments, where no piece runs on into the byte behind it, are the
/// tokens that are read of it.
pub fn layout_law()
    ensures { LaidOutIsRead }
{}
