use s38_code::Request;

/// An instruction that a process asks for, at a depth of its invocations.
#[derive(Clone, Copy)]
pub struct Act<'a> {
    pub process: u32,
    pub depth: u16,
    pub request: &'a Request,
}
