use crate::setup::Policy;
use morty_base::List;
use txn_parse::RawProg;
use txn_text::Token;

/// A setting that has a number.
#[derive(Clone, Copy)]
pub enum SettingName {
    Replicas,
    Wardens,
    Tries,
    Execs,
    Gap,
    Turns,
}

/// What a node is.
#[derive(Clone, Copy)]
pub enum NodeKind {
    Client,
    Replica,
    Warden,
}

/// What an entry of a list says of calls: they pick nothing, by the fair rule, or the newest envelope.
#[derive(Clone, Copy)]
pub enum Calls {
    Wait,
    Next,
    Newest,
}

/// A number that may have a minus.
#[derive(Clone, Copy)]
pub struct Signed {
    pub minus: bool,
    pub digits: Token,
}

#[derive(Clone, Copy)]
pub struct RawNode {
    pub kind: NodeKind,
    pub number: Token,
}

/// A version: its time and its client.
#[derive(Clone, Copy)]
pub struct RawVersion {
    pub ts: Token,
    pub client: Token,
}

#[derive(Clone, Copy)]
pub enum RawPick {
    Go,
    Hurry,
    Stop,
    Deliver(Token),
    Recover(RawVersion, Token),
    Truncate(RawVersion),
}

/// An entry of a list: so many calls, or one pick.
#[derive(Clone, Copy)]
pub enum RawEntry {
    Calls(Calls, Option<Token>),
    One(RawPick),
}

#[derive(Clone, Copy)]
pub struct RawTxn {
    pub name: Token,
    pub at: Option<Token>,
}

#[derive(Clone, Copy)]
pub enum RawNet {
    Fair,
    Listed,
    Seeded {
        seed: Token,
        late: Token,
        repeat: Token,
        hurry: Token,
    },
}

/// An item of a script, with its tokens. `word` is its first one, where a fault may stand in its line.
#[derive(Drop)]
pub enum RawItem {
    Version(Token),
    Setting {
        name: SettingName,
        word: Token,
        number: Token,
    },
    Policy {
        word: Token,
        policy: Policy,
    },
    Table(Token),
    First {
        word: Token,
        table: Token,
        index: Signed,
        value: Signed,
    },
    Program {
        word: Token,
        name: Token,
        prog: RawProg,
    },
    Client {
        word: Token,
        number: Token,
        txns: List<RawTxn>,
    },
    Net(RawNet),
    At {
        word: Token,
        now: Token,
        node: RawNode,
        pick: RawPick,
    },
    List {
        word: Token,
        node: RawNode,
        entries: List<RawEntry>,
    },
    End(Token),
}

/// Which settings a script has stated.
#[derive(Clone, Copy)]
pub struct Stated {
    pub replicas: bool,
    pub wardens: bool,
    pub tries: bool,
    pub execs: bool,
    pub gap: bool,
    pub turns: bool,
    pub policy: bool,
}
