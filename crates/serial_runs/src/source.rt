ghost use Rattle.std.specs.Prelude.{◌≡◌, Option, ℤ};
ghost use Rattle.std.specs.Option.{option_map};
ghost use Rattle.morty_base.specs.declared.names.Key.{Key as KeyValue};
ghost use Rattle.txn_lang.specs.Runs.{next_answer, map_answer};

use crate::map::Map;
use morty_base::Key;
use std::marker::Model;

/// Where the answers to outside reads come from.
pub trait Source: Drop {
    ghost answer: { Self → KeyValue → Option (ℤ × Self) };

    /// The answer for a key, or none where there is none yet.
    fn ask(&mut self, key: Key) -> Option<i64>
        ensures { answer self.old key ≡ option_map (λ x. (x, self.new)) result };
}

/// Answers in the order in which they are taken.
#[derive(Drop)]
pub struct Answers<'a> {
    left: &'a [i64],
}

impl<'a> Model for Answers<'a> {
    ghost use Rattle.std.specs.Prelude.{List, ℤ};

    ghost Value = { List ℤ };

    ghost view = { λ a. a.left.now };
}

impl<'a> Answers<'a> {
    pub fn new(left: &'a [i64]) -> Answers<'a>
        ensures { result ≡ left.now }
    {
        Answers { left }
    }
}

impl Source for Answers<'_> {
    ghost answer = { next_answer };

    fn ask(&mut self, _key: Key) -> Option<i64> {
        let (first, rest) = self.left.split_first()?;
        self.left = rest;
        Some(*first)
    }
}

/// A map, which answers for each key.
#[derive(Drop)]
pub struct Held<'a> {
    map: &'a Map,
}

impl<'a> Model for Held<'a> {
    ghost use Rattle.std.specs.Prelude.{List};
    ghost use Rattle.txn_lang.specs.Keys.{Entry as EntryValue};

    ghost Value = { List EntryValue };

    ghost view = { λ h. h.map.now };
}

impl<'a> Held<'a> {
    pub fn new(map: &'a Map) -> Held<'a>
        ensures { result ≡ map.now }
    {
        Held { map }
    }
}

impl Source for Held<'_> {
    ghost answer = { map_answer };

    fn ask(&mut self, key: Key) -> Option<i64> {
        Some(self.map.get(key))
    }
}
