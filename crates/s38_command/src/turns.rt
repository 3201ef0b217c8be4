/// In which turns the jobs of a deck are run.
#[derive(Clone, Copy, PartialEq, Eq, Debug)]
pub enum Turns {
    /// On one thread; the picker begins at this number.
    Serial { pick: u32 },
    /// On so many threads.
    Workers { count: u32 },
}
