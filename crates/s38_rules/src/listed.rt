use s38_base::Name;

/// The key of an object in the list of a context's contents: kind, subtype, name, in this order.
#[derive(Clone, Copy, PartialEq, Eq, PartialOrd, Ord, Debug)]
pub struct Listed {
    /// The number of the kind.
    pub kind: u8,
    pub sub: u8,
    pub name: Name,
}
