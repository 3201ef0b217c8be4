use s38_rules::Object;

/// What a store keeps of an object. Of a data space that is journaled it also says which entries of the journal are
/// counted in.
#[derive(Drop)]
pub struct Stored {
    pub object: Object,
    /// The last entry of the journal space that is counted in; 0 for what is not journaled.
    pub sequence: u64,
}
