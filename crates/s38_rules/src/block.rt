use s38_base::ObjNum;

/// What a commit block holds.
#[derive(Clone, Copy, PartialEq, Eq, Debug)]
pub struct Block {
    /// The journal port of the data spaces whose changes its units have.
    pub port: ObjNum,
}
