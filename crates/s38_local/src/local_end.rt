use s38_base::Exception;

/// How a local instruction ends.
#[derive(Clone, Copy, PartialEq, Eq, Debug)]
pub enum LocalEnd {
    /// The next instruction follows.
    Next,
    /// The instruction at this place follows, from 0 on.
    Jump { at: usize },
    /// The invocation ends.
    Return,
    /// It was refused, and changed no variable.
    Signal(Exception),
}
