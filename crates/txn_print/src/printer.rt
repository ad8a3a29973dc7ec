ghost use Rattle.std.specs.Prelude.{◌≡◌, ◌||◌, ◌++◌, [], true, OnOk};
ghost use Rattle.txn_print.specs.Piece.{Word, Name, Number, Symbol, Sign, is_close_symbol, is_open_symbol, gap};
ghost use Rattle.txn_print.specs.Printer.{with_piece, with_line};

use itoa::Buffer;
use morty_base::{List, NoMemory};
use std::alloc::Global;

/// A growing text, piece by piece. A blank is put between two pieces by the rule of canonical text.
#[derive(Debug, Drop)]
pub struct Printer {
    text: List<u8>,
    joined: bool,
}

fn is_close_symbol(symbol: &[u8]) -> bool
    ensures { result ≡ is_close_symbol symbol.now }
{
    matches!(symbol, b";" | b"[" | b"]" | b")" | b".")
}

fn is_open_symbol(symbol: &[u8]) -> bool
    ensures { result ≡ is_open_symbol symbol.now }
{
    matches!(symbol, b"(" | b"[" | b".")
}

impl Printer {
    /// A printer of no text, at the beginning of a line.
    pub fn new(alloc: Global) -> Printer
        ensures { result ≡ record { text = []; joined = true } }
    {
        Printer {
            text: List::new(alloc),
            joined: true,
        }
    }

    /// The text that was printed.
    pub fn into_text(self) -> List<u8>
        ensures { result ≡ self.text }
    {
        let Printer { text, joined: _ } = self;
        text
    }

    fn push(&mut self, is_close: bool, bytes: &[u8], is_open: bool) -> Result<(), NoMemory>
        ensures { OnOk result (self.new ≡ record { text = self.old.text ++ gap (self.old.joined || is_close) ++ bytes.now; joined = is_open }) }
    {
        if !self.joined && !is_close {
            self.text.push(b' ')?;
        }
        self.text.extend_from_slice(bytes)?;
        self.joined = is_open;
        Ok(())
    }

    #[tactic(auto, unfolding(crate::specs::Printer::with_piece))]
    pub fn word(&mut self, word: &[u8]) -> Result<(), NoMemory>
        ensures { OnOk result (self.new ≡ with_piece self.old (Word word.now)) }
    {
        self.push(false, word, false)
    }

    #[tactic(auto, unfolding(crate::specs::Printer::with_piece))]
    pub fn name(&mut self, name: &[u8]) -> Result<(), NoMemory>
        ensures { OnOk result (self.new ≡ with_piece self.old (Name name.now)) }
    {
        self.push(false, name, false)
    }

    #[tactic(auto, unfolding(crate::specs::Printer::with_piece))]
    pub fn number(&mut self, number: u64) -> Result<(), NoMemory>
        ensures { OnOk result (self.new ≡ with_piece self.old (Number number)) }
    {
        let mut buffer = Buffer::new();
        self.push(false, buffer.format(number).as_bytes(), false)
    }

    #[tactic(auto, unfolding(crate::specs::Printer::with_piece))]
    pub fn symbol(&mut self, symbol: &[u8]) -> Result<(), NoMemory>
        ensures { OnOk result (self.new ≡ with_piece self.old (Symbol symbol.now)) }
    {
        self.push(is_close_symbol(symbol), symbol, is_open_symbol(symbol))
    }

    /// The sign before what is negated.
    #[tactic(auto, unfolding(crate::specs::Printer::with_piece))]
    pub fn sign(&mut self) -> Result<(), NoMemory>
        ensures { OnOk result (self.new ≡ with_piece self.old Sign) }
    {
        self.push(false, b"-", true)
    }

    /// Ends a line.
    #[tactic(auto, unfolding(crate::specs::Printer::with_line))]
    pub fn end_line(&mut self) -> Result<(), NoMemory>
        ensures { OnOk result (self.new ≡ with_line self.old) }
    {
        self.text.push(b'\n')?;
        self.joined = true;
        Ok(())
    }
}
