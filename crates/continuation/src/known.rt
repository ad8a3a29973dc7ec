ghost use Rattle.std.specs.Prelude.{◌≡◌, reverse};
ghost use Rattle.std.specs.Option.{option_or};
ghost use Rattle.txn_lang.specs.Keys.{found};

use crate::segment::Known;
use flat_code::Write2;
use morty_base::Key;

// The value of the first entry of a key.
fn known_value(known: &[Known], key: Key) -> Option<i64>
    ensures { result ≡ found known.now key }
{
    let (first, rest) = known.split_first()?;
    if first.key == key {
        Some(first.value)
    } else {
        known_value(rest, key)
    }
}

// The value of the last write of a key.
fn last_written(wrote: &[Write2], key: Key) -> Option<i64>
    ensures { result ≡ found (reverse wrote.now) key }
{
    let (last, front) = wrote.split_last()?;
    if last.key == key {
        Some(last.value)
    } else {
        last_written(front, key)
    }
}

// What a run sees of a key without asking: its last own write, else what it saw before.
pub(crate) fn shown(wrote: &[Write2], seen: &[Known], key: Key) -> Option<i64>
    ensures { result ≡ option_or (found (reverse wrote.now) key) (found seen.now key) }
{
    match last_written(wrote, key) {
        Some(value) => Some(value),
        None => known_value(seen, key),
    }
}
