use s38_base::Special;

/// The place of a private row: whose it is, and on which object.
#[derive(Clone, Copy, PartialEq, Eq, PartialOrd, Ord, Debug)]
pub struct RowKey {
    pub user: u64,
    pub object: u64,
}

/// What is kept of a user: its special authorities, how many pages it may own, and how many it owns.
#[derive(Clone, Copy, PartialEq, Eq, Debug)]
pub struct Profile {
    pub special: Special,
    pub limit: u32,
    pub charge: u64,
}
