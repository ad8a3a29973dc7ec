use morty_base::Ended;

/// What a turn of a node answers.
#[derive(Debug, Drop)]
pub enum TurnOut<J> {
    /// Its link's pick moved the machine.
    Moved,
    /// A pending job that is to be run and given back.
    Job(J),
    /// Its link picked nothing that is enabled, or it did so before and nothing happened since.
    Idle,
    Quiet,
    Spent,
    Stopped,
    Full,
}

/// The cases of a turn, in their order.
#[derive(Debug, Drop)]
pub enum TurnCase<J> {
    /// The run has ended.
    Over(Ended),
    /// Every node rests.
    Quiet,
    /// The node was stopped.
    Stopped,
    /// It has a pending job that was not handed out.
    Job(J),
    /// It carries its idle mark.
    Marked,
    /// It has made its turns.
    Spent,
    /// Its link is asked.
    Ask,
}

/// How many events of a journal are picks, and how many are segments that were used.
#[derive(Clone, Copy, Debug, PartialEq, Eq)]
pub struct Counted {
    pub turns: u64,
    pub rans: u64,
}
