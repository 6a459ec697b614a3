//! Views of a recording: what one source of it typed, a line for each record, and when each text could be read, as a script.
#![tactic(auto)]

mod escapes;
mod heard_texts;
pub mod laws;
mod list_lines;
mod lists;
mod reads;
mod recordings;
mod records;
mod script_lines;
mod text_writers;

pub use escapes::append_escaped;
pub use heard_texts::{ear_for, write_packet, write_rest, write_texts};
pub use lists::list_records;
pub use reads::hear_recording;
pub use recordings::script_recording;
pub use text_writers::TextWriter;
