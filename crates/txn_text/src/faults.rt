ghost use Rattle.std.specs.Prelude.{◌≡◌};
ghost use Rattle.txn_text.specs.Faults.{words_of};

use morty_base::NoMemory;
use std::alloc::{AllocError, AllocFailed};

/// What is wrong with a text, as it is printed behind the line.
#[derive(Clone, Copy, Debug, PartialEq, Eq)]
pub enum FaultKind {
    Byte,
    LongName,
    Number,
    Syntax,
    Deep,
    LongExpression,
    EndOfText,
    Version,
    RepeatedSetting,
    SettingRange,
    RepeatedTable,
    TooManyTables,
    UnknownTable,
    RepeatedFirst,
    RepeatedProgram,
    TooManyPrograms,
    UnknownLocal,
    ProgramLimit,
    ClientOrder,
    UnknownProgram,
    TooManyTransactions,
    AtRange,
    NetRange,
    NoSuchNode,
    WrongNet,
    PlanRange,
}

impl FaultKind {
    /// The words that are printed.
    pub fn words(self) -> &'static str
        ensures { result.now ≡ words_of self }
    {
        match self {
            FaultKind::Byte => "byte",
            FaultKind::LongName => "long name",
            FaultKind::Number => "number",
            FaultKind::Syntax => "syntax",
            FaultKind::Deep => "deep",
            FaultKind::LongExpression => "long expression",
            FaultKind::EndOfText => "end of text",
            FaultKind::Version => "version",
            FaultKind::RepeatedSetting => "repeated setting",
            FaultKind::SettingRange => "setting range",
            FaultKind::RepeatedTable => "repeated table",
            FaultKind::TooManyTables => "too many tables",
            FaultKind::UnknownTable => "unknown table",
            FaultKind::RepeatedFirst => "repeated first",
            FaultKind::RepeatedProgram => "repeated program",
            FaultKind::TooManyPrograms => "too many programs",
            FaultKind::UnknownLocal => "unknown local",
            FaultKind::ProgramLimit => "program limit",
            FaultKind::ClientOrder => "client order",
            FaultKind::UnknownProgram => "unknown program",
            FaultKind::TooManyTransactions => "too many transactions",
            FaultKind::AtRange => "at range",
            FaultKind::NetRange => "net range",
            FaultKind::NoSuchNode => "no such node",
            FaultKind::WrongNet => "wrong net",
            FaultKind::PlanRange => "plan range",
        }
    }
}

/// Why a text is not read: a fault in a line counted from 1, or want of memory.
#[derive(Clone, Copy, Debug, PartialEq, Eq)]
pub enum TextFault {
    At { line: u32, kind: FaultKind },
    NoMemory,
}

impl From<NoMemory> for TextFault {
    ghost use Rattle.txn_text.specs.declared.faults.TextFault.TheVariants.{NoMemory as no_memory};

    ghost from_gives = { λ _ fault. fault ≡ no_memory };

    fn from(_e: NoMemory) -> TextFault {
        TextFault::NoMemory
    }
}

impl From<AllocError> for TextFault {
    ghost use Rattle.txn_text.specs.declared.faults.TextFault.TheVariants.{NoMemory as no_memory};

    ghost from_gives = { λ _ fault. fault ≡ no_memory };

    fn from(_e: AllocError) -> TextFault {
        TextFault::NoMemory
    }
}

impl<T: Drop> From<AllocFailed<T>> for TextFault {
    ghost use Rattle.txn_text.specs.declared.faults.TextFault.TheVariants.{NoMemory as no_memory};

    ghost from_gives = { λ _ fault. fault ≡ no_memory };

    fn from(_e: AllocFailed<T>) -> TextFault {
        TextFault::NoMemory
    }
}
