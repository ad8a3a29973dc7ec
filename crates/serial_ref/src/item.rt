use morty_base::Version;

/// Transaction `txn` of a client, both counted from 1, which runs at a version. It names a transaction of a setup where
/// its client is that of its version, and has a transaction of this number. Items are compared by version first.
#[derive(Clone, Copy, Debug, PartialEq, Eq, PartialOrd, Ord)]
pub struct SerialItem {
    pub ver: Version,
    pub client: u32,
    pub txn: u32,
}
