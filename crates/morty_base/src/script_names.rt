ghost use Rattle.std.specs.Prelude.{◌≡◌};
ghost use Rattle.morty_base.specs.ScriptNames.{is_letter, is_digit, is_name_byte, is_setting_word, is_item_word, is_net_word, is_plan_word, is_statement_word, is_reserved};

/// How many bytes a name has at most.
pub const LONGEST_NAME: usize = 32;

/// Whether the byte is a letter: names are in lower case.
pub fn is_letter(byte: u8) -> bool
    ensures { result ≡ is_letter byte }
{
    97 <= byte && byte <= 122
}

/// Whether the byte is a digit.
pub fn is_digit(byte: u8) -> bool
    ensures { result ≡ is_digit byte }
{
    48 <= byte && byte <= 57
}

/// Whether the byte goes on a name.
pub fn is_name_byte(byte: u8) -> bool
    ensures { result ≡ is_name_byte byte }
{
    is_letter(byte) || is_digit(byte) || byte == b'_'
}

/// Whether the bytes are a reserved word, which is no name.
#[tactic(auto, unfolding(crate::specs::ScriptNames::is_reserved))]
pub fn is_reserved(bytes: &[u8]) -> bool
    ensures { result ≡ is_reserved bytes.now }
{
    is_setting_word(bytes)
        || is_item_word(bytes)
        || is_net_word(bytes)
        || is_plan_word(bytes)
        || is_statement_word(bytes)
}

#[tactic(auto, unfolding(crate::specs::ScriptNames::is_setting_word))]
fn is_setting_word(bytes: &[u8]) -> bool
    ensures { result ≡ is_setting_word bytes.now }
{
    matches!(
        bytes,
        b"morty"
            | b"replicas"
            | b"wardens"
            | b"tries"
            | b"execs"
            | b"gap"
            | b"turns"
            | b"policy"
            | b"rewind"
            | b"abort"
    )
}

#[tactic(auto, unfolding(crate::specs::ScriptNames::is_item_word))]
fn is_item_word(bytes: &[u8]) -> bool
    ensures { result ≡ is_item_word bytes.now }
{
    matches!(
        bytes,
        b"table" | b"first" | b"program" | b"client" | b"at" | b"end"
    )
}

#[tactic(auto, unfolding(crate::specs::ScriptNames::is_net_word))]
fn is_net_word(bytes: &[u8]) -> bool
    ensures { result ≡ is_net_word bytes.now }
{
    matches!(
        bytes,
        b"net" | b"fair" | b"seeded" | b"listed" | b"late" | b"repeat" | b"hurry" | b"list"
    )
}

#[tactic(auto, unfolding(crate::specs::ScriptNames::is_plan_word))]
fn is_plan_word(bytes: &[u8]) -> bool
    ensures { result ≡ is_plan_word bytes.now }
{
    matches!(
        bytes,
        b"go"
            | b"stop"
            | b"deliver"
            | b"recover"
            | b"truncate"
            | b"wait"
            | b"next"
            | b"newest"
            | b"replica"
            | b"warden"
    )
}

#[tactic(auto, unfolding(crate::specs::ScriptNames::is_statement_word))]
fn is_statement_word(bytes: &[u8]) -> bool
    ensures { result ≡ is_statement_word bytes.now }
{
    matches!(
        bytes,
        b"let" | b"read" | b"write" | b"print" | b"if" | b"else" | b"and" | b"or" | b"not" | b"sum"
    )
}
