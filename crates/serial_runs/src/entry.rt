use morty_base::Key;
use std::marker::Model;

/// A key with a value, as it was read, written or is held.
#[derive(Clone, Copy, Debug, PartialEq, Eq)]
pub struct Entry {
    pub key: Key,
    pub value: i64,
}

impl Model for Entry {
    ghost use Rattle.std.specs.Prelude.{FitsSigned};
    ghost use Rattle.std.specs.Int.{w64};
    ghost use Rattle.std.specs.Coded.{codes};
    ghost use Rattle.txn_lang.specs.Keys.{Entry as EntryValue};

    ghost Value = { EntryValue };

    ghost coded = { Prim.hlevel codes };

    ghost view = { λ e. record { key = e.key; value = e.value } };

    ghost invariant = { λ e. FitsSigned w64 e.value };

    ghost inverse = { λ e. record { key = e.key; value = e.value } };
}
