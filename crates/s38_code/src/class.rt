/// What may be at an operand's place.
#[derive(Clone, Copy, PartialEq, Eq, Debug)]
pub enum Class {
    /// A number that is read: an item or a literal.
    NumberSource,
    /// An item that gets a number.
    NumberReceiver,
    /// Bytes that are read: an item but a pointer, or a text literal.
    BytesSource,
    /// Bytes that are read, or `*NONE`.
    BytesOrNone,
    /// An item but a pointer that gets bytes.
    BytesReceiver,
    /// A pointer that is used.
    PointerSource,
    /// An item that gets a pointer.
    PointerReceiver,
    /// Cells that are read with their pointers: a pointer, or bytes in a space.
    CellsSource,
    /// Cells that get bytes and pointers: a pointer, or bytes in a space.
    CellsReceiver,
    /// A pointer to a context, or `*MACHINE`.
    Context,
    /// A pointer to a context, `*MACHINE` or `*LIST`.
    ContextOrList,
    /// A pointer, or `*NONE`.
    PointerOrNone,
    /// A pointer to a profile, or `*PUBLIC`.
    UserOrPublic,
    /// A declared description of exceptions.
    Handler,
    /// An item that is passed on. Arguments are at the end of a row, and may be fewer than it has.
    Argument,
    /// What is written out in the program.
    Constant(Constant),
    /// A word of a fixed list.
    Keyword(Keyword),
}

/// What may be written out at an operand's place.
#[derive(Clone, Copy, PartialEq, Eq, Debug)]
pub enum Constant {
    /// `KIND/ss/NAME`
    Identification,
    Label,
    /// A whole number without a sign.
    Whole,
    /// The power of ten by which a number is scaled, which may have a sign.
    Power,
    Attribute,
    /// Attributes joined by `+`.
    Attributes,
    /// Four hexadecimal digits.
    ExceptionCode,
    TemplateName,
    JobName,
}

/// The list of which a word at an operand's place is one, or several joined.
#[derive(Clone, Copy, PartialEq, Eq, Debug)]
pub enum Keyword {
    Rights,
    Specials,
    LockState,
    /// WAIT or NOWAIT
    Wait,
    /// One of all nine relations.
    Relation,
    /// A relation of two values: EQ, NE, LO, HI, NL or NH.
    Comparison,
    /// FIFO, LIFO or KEYED
    Order,
    /// FIRST, LAST, NEXT, PREV or AT
    Seek,
    /// SYS, SPC, DTA or NONE
    PointerKind,
    /// ON or OFF
    Switch,
}
