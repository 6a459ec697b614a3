//! Scripts: texts and when they are typed; and what all files that people write have: lines, numbers, and why one is not read.
#![tactic(auto)]

mod escapes;
mod faults;
mod heads;
mod line_facts;
mod lines;
mod numerals;
mod script_lines;
mod script_reader;
mod scripts;
mod spans;

pub use faults::ConfFault;
pub use file_spec::ConfKind;
pub use lines::{next_line, says_nothing, text_of};
pub use numerals::{number_before_space, number_from, number_of, payload_types_of};
pub use script_lines::ScriptLine;
pub use script_reader::read_script;
pub use scripts::Script;
