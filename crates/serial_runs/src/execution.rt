ghost use Rattle.std.specs.Prelude.{◌≡◌, ◌+◌, ◌<◌, ◌≤◌, length, IfOk, OnOk};
ghost use Rattle.txn_lang.specs.declared.limits.TheConstants.{MOST_STEPS};
ghost use Rattle.txn_lang.specs.Tree.{term, Let, Read, Write, Print};
ghost use Rattle.txn_lang.specs.Value.{UsesBelow, value_of};
ghost use Rattle.txn_lang.specs.Actions.{ending_of, actions};
ghost use Rattle.serial_runs.specs.Execution.{IsStep, both, tested};

use crate::effects::{Effects, Stop};
use crate::source::Source;
use morty_base::{Ending, Key, List, NoMemory};
use txn_lang::{EvalFault, Expr, eval};

/// An execution under way: where its answers come from, the values of its locals, and what it did.
#[derive(Drop)]
pub struct Execution<S> {
    pub source: S,
    pub locals: List<i64>,
    pub did: Effects,
}

fn ending_of(fault: EvalFault) -> Ending
    ensures { result ≡ ending_of fault }
{
    match fault {
        EvalFault::Overflow => Ending::Overflow,
        EvalFault::ZeroDivisor => Ending::ZeroDivisor,
    }
}

/// A fault ends the execution.
fn stop_of(fault: EvalFault) -> Stop
    ensures { result ≡ Stop.Ends (ending_of fault) }
{
    Stop::Ends(ending_of(fault))
}

/// The values of a write's index and of its value, in this order.
fn values(index: &Expr, e: &Expr, locals: &[i64]) -> Result<(i64, i64), EvalFault>
    requires index { UsesBelow (term index.now) (length locals.now) }
    requires value { UsesBelow (term e.now) (length locals.now) }
    ensures { result ≡ both (value_of index.now locals.now) (value_of e.now locals.now) }
{
    let index = eval(index, locals)?;
    let value = eval(e, locals)?;
    Ok((index, value))
}

impl<S: Source> Execution<S> {
    /// Does a `let`.
    pub fn set_local(&mut self, v: u16, e: &Expr) -> Option<Stop>
        requires local { v < length self.old.locals }
        requires fits { UsesBelow (term e.now) (length self.old.locals) }
        requires few { self.old.did.begun < MOST_STEPS }
        ensures step { IsStep S.answer self.old self.new (actions (Let v (term e.now))) result }
        ensures locals { length self.new.locals ≡ length self.old.locals }
        ensures begun { self.new.did.begun ≡ self.old.did.begun + 1 }
    {
        self.did.begin();
        match eval(e, self.locals.as_slice()) {
            Ok(x) => {
                self.locals.set(usize::from(v), x);
                None
            }
            Err(fault) => Some(stop_of(fault)),
        }
    }

    /// Does a `read`: a known key shows its value, and for any other the source is asked.
    pub fn read(&mut self, v: u16, table: u16, index: &Expr) -> Result<Option<Stop>, NoMemory>
        requires local { v < length self.old.locals }
        requires fits { UsesBelow (term index.now) (length self.old.locals) }
        requires few { self.old.did.begun < MOST_STEPS }
        ensures step { IfOk result (IsStep S.answer self.old self.new (actions (Read v table (term index.now)))) }
        ensures locals { OnOk result (length self.new.locals ≡ length self.old.locals) }
        ensures begun { OnOk result (self.new.did.begun ≡ self.old.did.begun + 1) }
    {
        self.did.begin();
        let index = match eval(index, self.locals.as_slice()) {
            Ok(index) => index,
            Err(fault) => return Ok(Some(stop_of(fault))),
        };
        let key = Key { table, index };
        if let Some(value) = self.did.known.find(key) {
            self.locals.set(usize::from(v), value);
            return Ok(None);
        }
        match self.source.ask(key) {
            Some(value) => {
                self.did.read(key, value)?;
                self.locals.set(usize::from(v), value);
                Ok(None)
            }
            None => Ok(Some(Stop::Asks(key))),
        }
    }

    /// Does a `write`.
    pub fn write(&mut self, table: u16, index: &Expr, e: &Expr) -> Result<Option<Stop>, NoMemory>
        requires index { UsesBelow (term index.now) (length self.old.locals) }
        requires value { UsesBelow (term e.now) (length self.old.locals) }
        requires few { self.old.did.begun < MOST_STEPS }
        ensures step { IfOk result (IsStep S.answer self.old self.new (actions (Write table (term index.now) (term e.now)))) }
        ensures locals { OnOk result (length self.new.locals ≡ length self.old.locals) }
        ensures begun { OnOk result (self.new.did.begun ≡ self.old.did.begun + 1) }
    {
        self.did.begin();
        match values(index, e, self.locals.as_slice()) {
            Ok((index, value)) => {
                self.did.write(Key { table, index }, value)?;
                Ok(None)
            }
            Err(fault) => Ok(Some(stop_of(fault))),
        }
    }

    /// Does a `print`.
    pub fn print(&mut self, e: &Expr) -> Result<Option<Stop>, NoMemory>
        requires fits { UsesBelow (term e.now) (length self.old.locals) }
        requires few { self.old.did.begun < MOST_STEPS }
        ensures step { IfOk result (IsStep S.answer self.old self.new (actions (Print (term e.now)))) }
        ensures locals { OnOk result (length self.new.locals ≡ length self.old.locals) }
        ensures begun { OnOk result (self.new.did.begun ≡ self.old.did.begun + 1) }
    {
        self.did.begin();
        match eval(e, self.locals.as_slice()) {
            Ok(line) => {
                self.did.print(line)?;
                Ok(None)
            }
            Err(fault) => Ok(Some(stop_of(fault))),
        }
    }

    /// Begins an `if`, and says whether its number is not 0.
    pub fn test(&mut self, e: &Expr) -> Result<bool, Stop>
        requires fits { UsesBelow (term e.now) (length self.old.locals) }
        requires few { self.old.did.begun < MOST_STEPS }
        ensures value { result ≡ tested (value_of e.now self.old.locals) }
        ensures begun { self.new ≡ record self.old { did = record self.old.did { begun = self.old.did.begun + 1 } } }
    {
        self.did.begin();
        match eval(e, self.locals.as_slice()) {
            Ok(x) => Ok(x != 0),
            Err(fault) => Err(stop_of(fault)),
        }
    }
}
