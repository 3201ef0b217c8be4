//! Images as they are printed: the bytes of headers, rows and bodies, put into the pages of an object. Nothing here takes
//! memory.
#![tactic(auto)]

mod bodies;
mod body;
mod data_spaces;
mod indexes;
mod laws;
mod pages;
mod parts;
mod printing;
mod texts;
mod writer;

pub use bodies::{put_cells, put_journal, put_queue};
pub use body::image_len;
pub use data_spaces::put_data_space;
pub use indexes::put_index;
pub use laws::what_is_read_can_be_printed;
pub use pages::push_cells;
pub use parts::{part_count, to_parts, write_parts};
pub use printing::{put_block, put_cursor, put_header, put_port, put_profile, put_rows};
pub use texts::{put_text, text_len};
pub use writer::PageWriter;
