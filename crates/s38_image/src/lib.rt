//! Images: an object as its parts, the pages that a store keeps of it, and the object that some parts hold.
#![tactic(auto)]

mod assembly;
mod body_images;
mod data_spaces;
mod fault;
mod header;
mod heads;
mod indexes;
mod journals;
mod laws;
mod part_places;
mod programs;
mod queues;
mod rows;
mod scalars;
mod small_bodies;
mod spaces;
mod stored;
mod stream;

pub use assembly::{from_parts, header_in, split_at_part};
pub use data_spaces::data_space_in;
pub use fault::ImageFault;
pub use header::Header;
pub use heads::{HEADER_MARK, header_of, object_at, row_at};
pub use indexes::index_in;
pub use journals::journal_in;
pub use laws::{an_image_is_read_again, parts_are_those_of_their_object};
pub use part_places::{
    BODY_PART, CEILING_KEY, CEILING_MARK, CEILING_PARTS, HEADER_PART, PAGE_CELLS, ROW_BYTES,
    ROWS_PART,
};
pub use programs::program_in;
pub use queues::queue_in;
pub use rows::rows_of;
pub use scalars::{attr_at, pointer_at};
pub use small_bodies::{block_in, cursor_in, port_in, profile_in};
pub use spaces::{page_tags, space_in};
pub use stored::Stored;
pub use stream::{are_untagged, needed, stream_of, tags_in};
