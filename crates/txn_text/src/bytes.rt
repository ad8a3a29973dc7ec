ghost use Rattle.std.specs.Prelude.{◌≡◌, ◌≤◌};
ghost use Rattle.std.specs.List.{prefix_len};
ghost use Rattle.std.specs.Option.{SomeIff};
ghost use Rattle.morty_base.specs.ScriptNames.{is_name_byte, is_digit};
ghost use Rattle.txn_text.specs.Bytes.{is_blank, is_symbol, is_pair, in_comment, number_of};

use morty_base::{is_digit, is_name_byte};

/// The greatest number that a text may hold, which has 63 bits.
pub const GREATEST_NUMBER: u64 = 9_223_372_036_854_775_807;

pub fn is_blank(byte: u8) -> bool
    ensures { result ≡ is_blank byte }
{
    matches!(byte, b'\t' | b'\n' | b'\r' | b' ')
}

/// Whether the byte is a symbol.
pub fn is_symbol(byte: u8) -> bool
    ensures { result ≡ is_symbol byte }
{
    matches!(
        byte,
        b';' | b'{'
            | b'}'
            | b'('
            | b')'
            | b'['
            | b']'
            | b'.'
            | b'+'
            | b'-'
            | b'*'
            | b'/'
            | b'%'
            | b'='
            | b'<'
            | b'>'
    )
}

/// Whether the two bytes are one symbol.
pub fn is_pair(first: u8, second: u8) -> bool
    ensures { result ≡ is_pair first second }
{
    second == b'=' && matches!(first, b'=' | b'!' | b'<' | b'>')
}

/// How many bytes at the front of `bytes` go on a name.
pub fn name_len(bytes: &[u8]) -> usize
    ensures { result ≡ prefix_len is_name_byte bytes.now }
{
    bytes.iter().take_while(|byte| is_name_byte(**byte)).count()
}

/// How many digits are at the front of `bytes`.
pub fn digits_len(bytes: &[u8]) -> usize
    ensures { result ≡ prefix_len is_digit bytes.now }
{
    bytes.iter().take_while(|byte| is_digit(**byte)).count()
}

/// How many bytes are before the first line feed in `bytes`.
pub fn comment_len(bytes: &[u8]) -> usize
    ensures { result ≡ prefix_len in_comment bytes.now }
{
    bytes.iter().take_while(|byte| **byte != b'\n').count()
}

/// The number that digits stand for, unless it is above the greatest number of a text.
pub fn number(digits: &[u8]) -> Option<u64>
    ensures { SomeIff result (number_of digits.now ≤ GREATEST_NUMBER) (number_of digits.now) }
{
    let mut value: u64 = 0;
    for byte in digits {
        let digit = u64::from(byte.saturating_sub(b'0'));
        if value > (GREATEST_NUMBER - digit) / 10 {
            return None;
        }
        value = value * 10 + digit;
    }
    Some(value)
}
