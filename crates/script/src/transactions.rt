ghost use Rattle.std.specs.Prelude.{◌≡◌, ◌++◌, ◌∷◌, [], map, IfOk};
ghost use Rattle.txn_text.specs.Tokens.{token_bytes};
ghost use Rattle.txn_parse.specs.Binding.{FaultIs, is_unknown, place};
ghost use Rattle.script.specs.Meaning.{txn_of, prog_names};
ghost use Rattle.script.specs.Checks.{check, program_checks, room_checks, start_checks};
ghost use Rattle.script.specs.declared.limits.TheConstants.{MOST_TRANSACTIONS};
ghost use Rattle.script.specs.Building.{said_so_far, place_by, IsIndexed};
ghost use Rattle.txn_text.specs.declared.faults.FaultKind.TheVariants.{UnknownProgram};

use crate::builder::SetupBuilder;
use crate::items::RawTxn;
use crate::limits::MOST_TRANSACTIONS;
use crate::setup::Txn;
use crate::values::{fault_at, start};
use morty_base::List;
use std::alloc::Global;
use txn_text::{FaultKind, TextFault, Token, token_text};

// One transaction more than a client may have is a fault.
fn check_room(txns: &[RawTxn]) -> Result<(), TextFault>
    ensures { FaultIs (room_checks MOST_TRANSACTIONS txns.now) result }
{
    match txns.get(MOST_TRANSACTIONS) {
        Some(txn) => Err(fault_at(txn.name, FaultKind::TooManyTransactions)),
        None => Ok(()),
    }
}

impl SetupBuilder {
    fn program_place(&self, text: &[u8], name: Token) -> Result<u16, TextFault>
        requires { IsIndexed self.now }
        ensures fault { FaultIs (check (is_unknown text.now (prog_names (said_so_far self.now).script) name) name UnknownProgram ∷ []) result }
        ensures place { IfOk result (λ n. n ≡ place (prog_names (said_so_far self.now).script) (token_bytes text.now name)) }
    {
        match self.programs.place(token_text(text, name)) {
            Some(place) => Ok(place as u16),
            None => Err(fault_at(name, FaultKind::UnknownProgram)),
        }
    }

    // The place of each transaction's program.
    fn programs_of(
        &self,
        alloc: Global,
        text: &[u8],
        txns: &[RawTxn],
    ) -> Result<List<u16>, TextFault>
        requires { IsIndexed self.now }
        ensures fault { FaultIs (program_checks text.now (prog_names (said_so_far self.now).script) txns.now) result }
        ensures places { IfOk result (λ ps. ps ≡ map (place_by text.now (prog_names (said_so_far self.now).script)) txns.now) }
    {
        let mut places = List::new(alloc);
        for txn in txns {
            let place = self.program_place(text, txn.name)?;
            places.push(place)?;
        }
        Ok(places)
    }

    // Transactions of programs with these places.
    fn starts(
        &self,
        alloc: Global,
        text: &[u8],
        places: &[u16],
        txns: &[RawTxn],
    ) -> Result<List<Txn>, TextFault>
        requires { places.now ≡ map (place_by text.now (prog_names (said_so_far self.now).script)) txns.now }
        ensures fault { FaultIs (start_checks text.now txns.now) result }
        ensures said { IfOk result (λ ts. ts ≡ map (txn_of text.now (prog_names (said_so_far self.now).script)) txns.now) }
    {
        let mut starts = List::new(alloc);
        for (i, txn) in txns.iter().enumerate() {
            let at = start(text, txn.at)?;
            starts.push(Txn {
                prog: places[i],
                at,
            })?;
        }
        Ok(starts)
    }

    /// A client's transactions: their programs are known, they are few enough, and their times are within the limit.
    pub fn transactions(
        &self,
        alloc: Global,
        text: &[u8],
        txns: &[RawTxn],
    ) -> Result<List<Txn>, TextFault>
        requires { IsIndexed self.now }
        ensures fault { FaultIs (program_checks text.now (prog_names (said_so_far self.now).script) txns.now ++ (room_checks MOST_TRANSACTIONS txns.now ++ start_checks text.now txns.now)) result }
        ensures said { IfOk result (λ ts. ts ≡ map (txn_of text.now (prog_names (said_so_far self.now).script)) txns.now) }
    {
        let programs = self.programs_of(alloc, text, txns)?;
        check_room(txns)?;
        self.starts(alloc, text, programs.as_slice(), txns)
    }
}
