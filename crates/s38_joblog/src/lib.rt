//! The text of a history, and that of templates that were checked.
#![tactic(auto)]

mod check;
mod log;
mod text;
mod words;

pub use check::check_text;
pub use log::{bad_line, last_line, log_text};
pub use text::Text;
pub use words::add_rights;
