ghost use Rattle.std.specs.Prelude.{◌≡◌, ◌+◌, ◌-◌, ◌<◌, ◌≤◌, ◌++◌, length, take, drop, List, Some, Ok, IfOk, IfErr, slice_get};
ghost use Rattle.txn_lang.specs.declared.limits.TheConstants.{LONGEST_EXPRESSION, DEEPEST_BLOCK};
ghost use Rattle.txn_parse.specs.Tree.{commands};
ghost use Rattle.txn_parse.specs.Symbols.{lexemes};
ghost use Rattle.txn_parse.specs.Grammar.{Within, IsBlock};
ghost use Rattle.txn_parse.specs.Gives.{last_line, IsBlockFault};
ghost use Rattle.txn_parse.specs.Laws.{FoundIsDerived, DerivedIsFound, HasOneTree, FaultIsFirst};
ghost use Rattle.txn_parse.specs.Counts.{LimitsAreCounts};
ghost use Rattle.txn_parse.specs.Faults.{OneFault, FaultIsDecided, placed};

use crate::blocks::read_block;
use crate::limits::block_front;
use crate::tree::RawProg;
use std::alloc::Global;
use txn_text::{FaultKind, TextFault, Token};

/// The line in which a text ends, counted from 1.
pub fn last_line(text: &[u8]) -> u32
    requires { length text.now < u32.MAX }
    ensures { result ≡ last_line text.now }
{
    let feeds = text.iter().filter(|byte| **byte == b'\n').count();
    feeds as u32 + 1
}

// The fault of a block, where reading it came to this one: at the end of the tokens that tell it, a limit's or the end
// of the text.
fn placed(text: &[u8], past: Option<TextFault>, fault: TextFault) -> TextFault
    requires { length text.now < u32.MAX }
    ensures { result ≡ placed (last_line text.now) past fault }
{
    match (past, fault) {
        (
            Some(limit),
            TextFault::At {
                kind: FaultKind::EndOfText,
                ..
            },
        ) => limit,
        (
            None,
            TextFault::At {
                kind: FaultKind::EndOfText,
                ..
            },
        ) => TextFault::At {
            line: last_line(text),
            kind: FaultKind::EndOfText,
        },
        (_, other) => other,
    }
}

/// The block that begins at token `from` of a text's tokens, and the place of the token behind it.
pub fn parse_prog(
    alloc: Global,
    text: &[u8],
    toks: &[Token],
    from: usize,
) -> Result<(RawProg, usize), TextFault>
    requires short { length text.now < u32.MAX }
    requires within { from ≤ length toks.now }

    // The tree is in the grammar, within the limits.
    ensures found { IfOk result (λ x. IsBlock (Within LONGEST_EXPRESSION DEEPEST_BLOCK) (lexemes text.now (take (x.1 - from) (drop from toks.now))) (commands x.0.body)) }
    ensures brace { IfOk result (λ x. slice_get toks.now from ≡ Some x.0.brace) }
    ensures place { IfOk result (λ x. (from < x.1) × (x.1 ≤ length toks.now)) }

    // A fault is the one of the tokens, and no block within the limits stands in front of them.
    ensures fault { IfErr result (IsBlockFault text.now toks.now from) }
{
    let rest = &toks[from..];
    let (cut, past) = block_front(text, rest);
    match read_block(alloc, text, 0, cut) {
        Ok((body, behind)) => Ok((
            RawProg {
                brace: toks[from],
                body,
            },
            from + (cut.len() - behind.len()),
        )),
        Err(fault) => Err(placed(text, past, fault)),
    }
}

/// The reading of blocks and their grammar agree: what is found is in the grammar, what is in the grammar is found, no
/// tokens stand for two blocks, and each fault is the first one.
pub fn grammar_laws()
    ensures found { FoundIsDerived }
    ensures derived { DerivedIsFound }
    ensures one_tree { HasOneTree }
    ensures first { FaultIsFirst }
{}

/// The fault of a list of tokens, by counting and by the grammar without limits: a block is within the limits just where
/// no token of it is past one, a list has one fault at most, and has one where no block within the limits stands in front.
pub fn fault_laws()
    ensures counts { LimitsAreCounts }
    ensures one { OneFault }
    ensures decided { FaultIsDecided }
{}
