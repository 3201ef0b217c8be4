use s38_base::ObjNum;

/// What a journal port holds.
#[derive(Clone, Copy, PartialEq, Eq, Debug)]
pub struct Port {
    /// The journal space to which the changes of its data spaces go.
    pub journal: ObjNum,
}
