ghost use Rattle.txn_print.specs.Laws.{PiecesAreCounted, CanonicalIsRead};

/// An expression's canonical text has as many tokens as the limit on its length counts.
pub fn pieces_are_counted()
    ensures { PiecesAreCounted }
{}

/// The canonical text of a program is read as that program, where its numbers are ones that a text can have and its tables
/// have distinct names.
pub fn canonical_is_read()
    ensures { CanonicalIsRead }
{}
