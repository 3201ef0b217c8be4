/// What an instruction asks of its operands together, beside the class of each.
#[derive(Clone, Copy, PartialEq, Eq, Debug)]
pub enum OperandRule {
    /// Nothing.
    Free,
    /// All operands are equally long.
    EqualLengths,
    /// The third and the fourth operand are equally long.
    EqualTables,
    /// The third operand is one byte.
    OneByte,
    /// The first operand is twice as long as the second.
    TwiceTheSource,
    /// The second operand is twice as long as the first.
    TwiceTheReceiver,
    /// The first operand is a variable of the invocation of two bytes.
    TwoLocalBytes,
    /// The first operand is a binary number of two bytes.
    ShortBinary,
    /// The operands after the first are parameters.
    Parameters,
    /// Length of key 0, or 1 to 120 for KEYED; longest message 1 to 4,096.
    QueueLengths,
    /// The longest entry is 1 to 120 bytes.
    EntryLength,
}
