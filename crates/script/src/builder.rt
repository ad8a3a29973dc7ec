ghost use Rattle.std.specs.Prelude.{◌≡◌, ◌<◌, ◌∷◌, [], true, false, cond, length, OnOk, IfOk};
ghost use Rattle.std.specs.BTreeSet.{contains};
ghost use Rattle.morty_base.specs.declared.names.Key.{Key as KeyValue};
ghost use Rattle.morty_base.specs.Names.{same_key};
ghost use Rattle.txn_text.specs.Tokens.{token_bytes};
ghost use Rattle.txn_text.specs.declared.faults.FaultKind.TheVariants.{UnknownTable, RepeatedFirst};
ghost use Rattle.script.specs.declared.limits.TheConstants.{MOST_PROGRAMS};
ghost use Rattle.txn_parse.specs.Tree.{commands};
ghost use Rattle.txn_parse.specs.Binding.{FaultIs, IsParsed, is_known, is_unknown, place};
ghost use Rattle.script.specs.Items.{item, Version, Setting, Policy as PolicyItem, Table, First as FirstItem, Program, Client, Net as NetItem, At, Entries, End};
ghost use Rattle.script.specs.Meaning.{Said, nothing_said, said_by, prog_names, after};
ghost use Rattle.script.specs.Checks.{check, checks, has_first, name_checks};
ghost use Rattle.script.specs.Building.{said_so_far, key_cmp, IsIndexed, IsReadable};

use crate::items::{
    RawEntry, RawItem, RawNet, RawNode, RawPick, RawTxn, SettingName, Signed, Stated,
};
use crate::limits::{MOST_CLIENTS, MOST_PROGRAMS, MOST_TABLES};
use crate::planning::{entries, is_listed, node};
use crate::settings::{is_stated, may_be, set, with_stated};
use crate::setup::{First, NamedProg, Net, Policy, Setup};
use crate::values::{fault_at, net, pick, signed};
use morty_base::{Key, List};
use net_core::{PlanItem, PlanWhat};
use std::alloc::Global;
use std::collections::BTreeSet;
use txn_parse::{NameIndex, RawProg, bind_prog, check_tables};
use txn_text::{FaultKind, TextFault, Token, number_value, token_text};

/// A setup while the items of its script are taken one after another.
#[derive(Drop)]
pub struct SetupBuilder {
    pub(crate) setup: Setup,
    pub(crate) stated: Stated,
    pub(crate) tables: NameIndex,
    pub(crate) programs: NameIndex,
    pub(crate) firsts: BTreeSet<Key>,
}

fn version(text: &[u8], number: Token) -> Result<(), TextFault>
    ensures { (s : Said) → FaultIs (checks text.now s (Version number)) result }
{
    if number_value(text, number) != 1 {
        return Err(fault_at(number, FaultKind::Version));
    }
    Ok(())
}

impl SetupBuilder {
    /// The builder that has taken no item.
    pub fn new(alloc: Global) -> SetupBuilder
        ensures said { said_so_far result ≡ nothing_said }
        ensures indexed { IsIndexed result }
    {
        SetupBuilder {
            setup: Setup {
                replicas: 3,
                wardens: 0,
                tries: 3,
                execs: 16,
                gap: 1,
                turns: 5000,
                policy: Policy::Rewind,
                tables: List::new(alloc),
                firsts: List::new(alloc),
                progs: List::new(alloc),
                clients: List::new(alloc),
                net: Net::Fair,
                plan: List::new(alloc),
            },
            stated: Stated {
                replicas: false,
                wardens: false,
                tries: false,
                execs: false,
                gap: false,
                turns: false,
                policy: false,
            },
            tables: NameIndex::new(alloc),
            programs: NameIndex::new(alloc),
            firsts: BTreeSet::new(alloc),
        }
    }

    fn setting(
        &mut self,
        text: &[u8],
        name: SettingName,
        word: Token,
        number: Token,
    ) -> Result<(), TextFault>
        requires { IsIndexed self.old }
        ensures fault { FaultIs (checks text.now (said_so_far self.old) (Setting name word number)) result }
        ensures said { OnOk result (said_so_far self.new ≡ after text.now (said_so_far self.old) (Setting name word number)) }
        ensures indexed { OnOk result (IsIndexed self.new) }
    {
        if is_stated(name, self.stated) {
            return Err(fault_at(word, FaultKind::RepeatedSetting));
        }
        let value = number_value(text, number);
        if !may_be(name, value) {
            return Err(fault_at(number, FaultKind::SettingRange));
        }
        set(&mut self.setup, name, value);
        self.stated = with_stated(name, self.stated);
        Ok(())
    }

    fn policy(&mut self, text: &[u8], word: Token, policy: Policy) -> Result<(), TextFault>
        requires { IsIndexed self.old }
        ensures fault { FaultIs (checks text.now (said_so_far self.old) (PolicyItem word policy)) result }
        ensures said { OnOk result (said_so_far self.new ≡ after text.now (said_so_far self.old) (PolicyItem word policy)) }
        ensures indexed { OnOk result (IsIndexed self.new) }
    {
        if self.stated.policy {
            return Err(fault_at(word, FaultKind::RepeatedSetting));
        }
        self.setup.policy = policy;
        self.stated.policy = true;
        Ok(())
    }

    fn table(&mut self, alloc: Global, text: &[u8], name: Token) -> Result<(), TextFault>
        requires { IsIndexed self.old }
        ensures fault { FaultIs (checks text.now (said_so_far self.old) (Table name)) result }
        ensures said { OnOk result (said_so_far self.new ≡ after text.now (said_so_far self.old) (Table name)) }
        ensures indexed { OnOk result (IsIndexed self.new) }
    {
        let bytes = token_text(text, name);
        if self.tables.place(bytes).is_some() {
            return Err(fault_at(name, FaultKind::RepeatedTable));
        }
        let place = self.setup.tables.len();
        if place >= MOST_TABLES {
            return Err(fault_at(name, FaultKind::TooManyTables));
        }
        self.tables.add(alloc, bytes, place)?;
        self.setup.tables.push(List::from_slice(alloc, bytes)?)?;
        Ok(())
    }

    // The place of a table.
    fn table_place(&self, text: &[u8], name: Token) -> Result<u16, TextFault>
        requires { IsIndexed self.now }
        ensures fault { FaultIs (check (is_unknown text.now self.now.setup.tables name) name UnknownTable ∷ []) result }
        ensures place { IfOk result (λ n. n ≡ place self.now.setup.tables (token_bytes text.now name)) }
    {
        match self.tables.place(token_text(text, name)) {
            Some(place) => Ok(place as u16),
            None => Err(fault_at(name, FaultKind::UnknownTable)),
        }
    }

    // Notes that a key has a first value.
    fn add_key(&mut self, word: Token, key: Key) -> Result<(), TextFault>
        requires { IsIndexed self.old }
        ensures fault { FaultIs (check (has_first key self.old.setup.firsts) word RepeatedFirst ∷ []) result }
        ensures keys { OnOk result ((k : KeyValue) → contains key_cmp self.new.firsts k ≡ cond (same_key key k) true (contains key_cmp self.old.firsts k)) }
        ensures tables { self.new.tables ≡ self.old.tables }
        ensures programs { self.new.programs ≡ self.old.programs }
        ensures setup { self.new.setup ≡ self.old.setup }
        ensures stated { self.new.stated ≡ self.old.stated }
    {
        if self.firsts.insert(key)? {
            Ok(())
        } else {
            Err(fault_at(word, FaultKind::RepeatedFirst))
        }
    }

    fn first(
        &mut self,
        text: &[u8],
        word: Token,
        table: Token,
        index: Signed,
        value: Signed,
    ) -> Result<(), TextFault>
        requires { IsIndexed self.old }
        ensures fault { FaultIs (checks text.now (said_so_far self.old) (FirstItem word table index value)) result }
        ensures said { OnOk result (said_so_far self.new ≡ after text.now (said_so_far self.old) (FirstItem word table index value)) }
        ensures indexed { OnOk result (IsIndexed self.new) }
    {
        let table = self.table_place(text, table)?;
        let key = Key {
            table,
            index: signed(text, index),
        };
        self.add_key(word, key)?;
        self.setup.firsts.push(First {
            key,
            value: signed(text, value),
        })?;
        Ok(())
    }

    // The place of a further program.
    fn new_program(&self, text: &[u8], name: Token) -> Result<usize, TextFault>
        requires { IsIndexed self.now }
        ensures fault { FaultIs (name_checks text.now (said_so_far self.now).script name) result }
        ensures place { IfOk result (λ n. n ≡ length self.now.setup.progs) }
        ensures within { IfOk result (λ n. n < MOST_PROGRAMS) }
        ensures new { OnOk result (is_known (prog_names (said_so_far self.now).script) (token_bytes text.now name) ≡ false) }
    {
        if self.programs.place(token_text(text, name)).is_some() {
            return Err(fault_at(name, FaultKind::RepeatedProgram));
        }
        let place = self.setup.progs.len();
        if place >= MOST_PROGRAMS {
            return Err(fault_at(name, FaultKind::TooManyPrograms));
        }
        Ok(place)
    }

    fn program(
        &mut self,
        alloc: Global,
        text: &[u8],
        word: Token,
        name: Token,
        prog: &RawProg,
    ) -> Result<(), TextFault>
        requires indexed { IsIndexed self.old }
        requires parsed { IsParsed text.now (commands prog.now.body) }
        ensures fault { FaultIs (checks text.now (said_so_far self.old) (Program word name (commands prog.now.body))) result }
        ensures said { OnOk result (said_so_far self.new ≡ after text.now (said_so_far self.old) (Program word name (commands prog.now.body))) }
        ensures indexed { OnOk result (IsIndexed self.new) }
    {
        check_tables(text, prog, self.setup.tables.as_slice())?;
        let place = self.new_program(text, name)?;
        let prog = bind_prog(alloc, text, prog, self.setup.tables.as_slice(), word.line)?;
        let bytes = token_text(text, name);
        self.programs.add(alloc, bytes, place)?;
        let name = List::from_slice(alloc, bytes)?;
        self.setup.progs.push(NamedProg { name, prog })?;
        Ok(())
    }

    fn client(
        &mut self,
        alloc: Global,
        text: &[u8],
        word: Token,
        number: Token,
        txns: &[RawTxn],
    ) -> Result<(), TextFault>
        requires { IsIndexed self.old }
        ensures fault { FaultIs (checks text.now (said_so_far self.old) (Client word number txns.now)) result }
        ensures said { OnOk result (said_so_far self.new ≡ after text.now (said_so_far self.old) (Client word number txns.now)) }
        ensures indexed { OnOk result (IsIndexed self.new) }
    {
        let clients = self.setup.clients.len();
        if number_value(text, number) != clients as u64 + 1 || clients >= MOST_CLIENTS {
            return Err(fault_at(word, FaultKind::ClientOrder));
        }
        let txns = self.transactions(alloc, text, txns)?;
        self.setup.clients.push(txns)?;
        Ok(())
    }

    fn net(&mut self, text: &[u8], raw: RawNet) -> Result<(), TextFault>
        requires { IsIndexed self.old }
        ensures fault { FaultIs (checks text.now (said_so_far self.old) (NetItem raw)) result }
        ensures said { OnOk result (said_so_far self.new ≡ after text.now (said_so_far self.old) (NetItem raw)) }
        ensures indexed { OnOk result (IsIndexed self.new) }
    {
        self.setup.net = net(text, raw)?;
        Ok(())
    }

    fn at(
        &mut self,
        text: &[u8],
        word: Token,
        now: Token,
        raw: RawNode,
        raw_pick: RawPick,
    ) -> Result<(), TextFault>
        requires { IsIndexed self.old }
        ensures fault { FaultIs (checks text.now (said_so_far self.old) (At word now raw raw_pick)) result }
        ensures said { OnOk result (said_so_far self.new ≡ after text.now (said_so_far self.old) (At word now raw raw_pick)) }
        ensures indexed { OnOk result (IsIndexed self.new) }
    {
        let node = node(text, &self.setup, raw)?;
        if is_listed(self.setup.net) {
            return Err(fault_at(word, FaultKind::WrongNet));
        }
        let pick = pick(text, raw_pick)?;
        let now = number_value(text, now);
        self.setup.plan.push(PlanItem {
            node,
            what: PlanWhat::At { now, pick },
        })?;
        Ok(())
    }

    fn list(
        &mut self,
        text: &[u8],
        word: Token,
        raw: RawNode,
        raw_entries: &[RawEntry],
    ) -> Result<(), TextFault>
        requires { IsIndexed self.old }
        ensures fault { FaultIs (checks text.now (said_so_far self.old) (Entries word raw raw_entries.now)) result }
        ensures said { OnOk result (said_so_far self.new ≡ after text.now (said_so_far self.old) (Entries word raw raw_entries.now)) }
        ensures indexed { OnOk result (IsIndexed self.new) }
    {
        let node = node(text, &self.setup, raw)?;
        if !is_listed(self.setup.net) {
            return Err(fault_at(word, FaultKind::WrongNet));
        }
        entries(text, node, raw_entries, &mut self.setup.plan)
    }

    fn end(&self, text: &[u8], word: Token) -> Result<(), TextFault>
        ensures { FaultIs (checks text.now (said_so_far self.now) (End word)) result }
    {
        if self.setup.clients.is_empty() {
            return Err(fault_at(word, FaultKind::ClientOrder));
        }
        Ok(())
    }

    /// Takes one more item of the text: what it says behind the items that were taken, or the fault of its first check that
    /// fails. Behind a fault the builder is of no use.
    pub fn take(&mut self, alloc: Global, text: &[u8], raw: &RawItem) -> Result<(), TextFault>
        requires indexed { IsIndexed self.old }
        requires readable { IsReadable text.now (item raw.now) }
        ensures fault { FaultIs (checks text.now (said_so_far self.old) (item raw.now)) result }
        ensures said { OnOk result (said_so_far self.new ≡ after text.now (said_so_far self.old) (item raw.now)) }
        ensures indexed { OnOk result (IsIndexed self.new) }
    {
        match raw {
            RawItem::Version(number) => version(text, *number),
            RawItem::Setting { name, word, number } => self.setting(text, *name, *word, *number),
            RawItem::Policy { word, policy } => self.policy(text, *word, *policy),
            RawItem::Table(name) => self.table(alloc, text, *name),
            RawItem::First {
                word,
                table,
                index,
                value,
            } => self.first(text, *word, *table, *index, *value),
            RawItem::Program { word, name, prog } => self.program(alloc, text, *word, *name, prog),
            RawItem::Client { word, number, txns } => self.client(
                alloc,
                text,
                *word,
                *number,
                txns.as_slice(),
            ),
            RawItem::Net(raw) => self.net(text, *raw),
            RawItem::At {
                word,
                now,
                node,
                pick,
            } => self.at(text, *word, *now, *node, *pick),
            RawItem::List {
                word,
                node,
                entries,
            } => self.list(text, *word, *node, entries.as_slice()),
            RawItem::End(word) => self.end(text, *word),
        }
    }

    /// The setup that the items say.
    pub fn into_setup(self) -> Setup
        ensures { said_by result ≡ (said_so_far self).script }
    {
        self.setup
    }
}
