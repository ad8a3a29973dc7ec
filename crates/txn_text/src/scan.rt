ghost use Rattle.std.specs.Prelude.{◌≡◌, ◌<◌, length, drop, IfOk};
ghost use Rattle.txn_text.specs.Tokens.{front_of, name_front, number_front, single_front, symbol_front, tokens_of, Gives};
ghost use Rattle.txn_text.specs.Kinds.{AreTokens};

use crate::bytes::{comment_len, digits_len, is_blank, is_pair, is_symbol, name_len, number};
use crate::{FaultKind, TextFault, Token, TokenKind};
use morty_base::{LONGEST_NAME, List, is_digit, is_letter, is_reserved};
use std::alloc::Global;

/// What stands at the front of a text: a blank or a comment, a token, each with its length, or a fault.
#[derive(Clone, Copy, Debug, PartialEq, Eq)]
pub enum Front {
    Gap(usize),
    Lexeme(TokenKind, usize),
    Bad(FaultKind),
}

fn single_front(byte: u8) -> Front
    ensures { result ≡ single_front byte }
{
    if is_symbol(byte) {
        Front::Lexeme(TokenKind::Sym, 1)
    } else {
        Front::Bad(FaultKind::Byte)
    }
}

fn symbol_front(first: u8, rest: &[u8]) -> Front
    ensures { result ≡ symbol_front first rest.now }
{
    match rest.first() {
        Some(second) if is_pair(first, *second) => Front::Lexeme(TokenKind::Sym, 2),
        _ => single_front(first),
    }
}

fn name_front(name: &[u8]) -> Front
    ensures { result ≡ name_front name.now }
{
    if name.len() > LONGEST_NAME {
        return Front::Bad(FaultKind::LongName);
    }
    let kind = if is_reserved(name) {
        TokenKind::Word
    } else {
        TokenKind::Name
    };
    Front::Lexeme(kind, name.len())
}

fn number_front(digits: &[u8]) -> Front
    ensures { result ≡ number_front digits.now }
{
    match number(digits) {
        Some(_) => Front::Lexeme(TokenKind::Number, digits.len()),
        None => Front::Bad(FaultKind::Number),
    }
}

#[tactic(auto, unfolding(crate::specs::Tokens::front_of))]
fn read_front(text: &[u8]) -> Front
    ensures { result ≡ front_of text.now }
{
    let Some((first, rest)) = text.split_first() else {
        return Front::Gap(0);
    };
    let first = *first;
    if is_blank(first) {
        Front::Gap(1)
    } else if first == b'#' {
        Front::Gap(comment_len(text))
    } else if is_letter(first) {
        name_front(&text[..name_len(text)])
    } else if is_digit(first) {
        number_front(&text[..digits_len(text)])
    } else {
        symbol_front(first, rest)
    }
}

/// What stands at byte `at` of a text.
fn front_at(text: &[u8], at: usize) -> Front
    requires { at < length text.now }
    ensures { result ≡ front_of (drop at text.now) }
{
    read_front(&text[at..])
}

/// The tokens of a text, or its first bad token.
pub fn tokens(alloc: Global, text: &[u8]) -> Result<List<Token>, TextFault>
    requires { length text.now < u32.MAX }
    ensures exact { Gives result (tokens_of text.now) }
    ensures in_order { IfOk result (λ toks. AreTokens text.now 0 toks) }
{
    let mut toks = List::new(alloc);
    let mut at = 0;
    let mut line = 1;
    while at < text.len() {
        match front_at(text, at) {
            Front::Gap(len) => {
                if text[at] == b'\n' {
                    line += 1;
                }
                at += len;
            }
            Front::Lexeme(kind, len) => {
                toks.push(Token {
                    kind,
                    start: at as u32,
                    end: (at + len) as u32,
                    line,
                })?;
                at += len;
            }
            Front::Bad(kind) => return Err(TextFault::At { line, kind }),
        }
    }
    Ok(toks)
}
