//! Formats of bytes. A format of the definitions (`specs/Codec`) prints values and reads them from the front of
//! bytes; here are the readers and writers of numbers and texts that meet them.
#![tactic(auto)]

mod fault;
mod readers;
mod writers;

pub use fault::ReadFault;
pub use readers::{byte_at, bytes_at, is_zeros, short_text_at, text_at, u16_at, u32_at, u64_at};
pub use writers::{
    put, put_byte, put_count, put_short_count, put_u16, put_u32, put_u64, u16_bytes, u32_bytes,
    u64_bytes,
};
