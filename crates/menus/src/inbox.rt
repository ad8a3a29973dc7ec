//! The envelopes to one node, by their numbers: which of them were not delivered yet, and which were.

ghost use Rattle.std.specs.Prelude.{◌≡◌, ◌≤◌, ◌<◌, ◌++◌, ◌∷◌, [], length, not, remove, OnOk, OnErr};
ghost use Rattle.protocol.specs.World.Events.{marked};
ghost use Rattle.menus.specs.Inbox.{AreBelow, without};
ghost use Rattle.menus.specs.Shown.{has_number};

use morty_base::{List, NoMemory};
use std::alloc::Global;
use std::marker::Model;

/// Contracts see the fresh numbers, rising, and the delivered ones, in the order of first delivery.
#[derive(Debug, Drop)]
pub struct Inbox {
    // The first `taken` of these were delivered, and are no more told of.
    numbers: Vec<u64>,
    taken: usize,
    delivered: List<u64>,
}

impl Model for Inbox {
    ghost use Rattle.std.specs.Prelude.{◌≤◌, drop, length};
    ghost use Rattle.menus.specs.Inbox.{Arrived, AreRising};

    ghost Value = { Arrived };

    ghost view = { λ b. record { fresh = drop b.taken b.numbers.items; delivered = b.delivered } };

    ghost invariant = { λ b. (b.taken ≤ length b.numbers.items) × AreRising (drop b.taken b.numbers.items) };
}

// The number at a place goes, and those between a start and that place move up by one.
fn close_up(numbers: &mut Vec<u64>, start: usize, at: usize)
    requires from { start ≤ at }
    requires within { at < length numbers.old.items }
    ensures len { length numbers.new.items ≡ length numbers.old.items }
    ensures left { remove numbers.new.items start ≡ remove numbers.old.items at }
{
    let mut gap = at;
    while gap > start {
        numbers[gap] = numbers[gap - 1];
        gap -= 1;
    }
}

impl Inbox {
    /// An inbox to which nothing came.
    pub fn new(alloc: Global) -> Inbox
        ensures { result ≡ record { fresh = []; delivered = [] } }
    {
        Inbox {
            numbers: Vec::new(alloc),
            taken: 0,
            delivered: List::new(alloc),
        }
    }

    /// The numbers of the envelopes that were not delivered yet, rising.
    pub fn fresh(&self) -> &[u64]
        ensures { result.now ≡ self.now.fresh }
    {
        &self.numbers[self.taken..]
    }

    /// The numbers of the delivered ones, in the order of first delivery.
    pub fn delivered(&self) -> &[u64]
        ensures { result.now ≡ self.now.delivered }
    {
        self.delivered.as_slice()
    }

    /// One more envelope was sent to the node. Its number is above those of the fresh ones.
    pub fn arrive(&mut self, i: u64) -> Result<(), NoMemory>
        requires { AreBelow i self.old.fresh }
        ensures ok { OnOk result (self.new ≡ record self.old { fresh = self.old.fresh ++ i ∷ [] }) }
        ensures err { OnErr result (self.new ≡ self.old) }
    {
        self.numbers.push(i)?;
        Ok(())
    }

    // The number at a place of the fresh ones is no longer fresh. Those on its shorter side move.
    fn take(&mut self, place: usize)
        requires { place < length self.old.fresh }
        ensures { self.new ≡ record self.old { fresh = remove self.old.fresh place } }
    {
        let at = self.taken + place;
        if place <= self.numbers.len() - at {
            close_up(&mut self.numbers, self.taken, at);
            self.taken += 1;
        } else {
            self.numbers.remove(at);
        }
    }

    /// An envelope to the node is delivered, once or again. Where it is not fresh, it was delivered before.
    pub fn deliver(&mut self, i: u64) -> Result<(), NoMemory>
        requires { has_number i self.old.delivered ≡ not (has_number i self.old.fresh) }
        ensures ok { OnOk result (self.new ≡ record { fresh = without i self.old.fresh; delivered = marked i self.old.delivered }) }
        ensures err { OnErr result (self.new ≡ self.old) }
    {
        if let Ok(place) = self.fresh().binary_search(&i) {
            self.delivered.push(i)?;
            self.take(place);
        }
        Ok(())
    }
}
