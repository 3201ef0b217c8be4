//! Each object that a close keeps needs one put at most, so that a crash meanwhile leaves what the machine makes durable where it
//! ensures the first objects, one after another. Definitions and proofs alone, but that laws are called, and that the objects
//! are gone through whose headers can be read again.

mod headers;
mod laws;

pub use headers::headers_can_be_read;
pub use laws::each_object_is_closed_by_one_put;
