//! What a file is, whether the program takes it, and if not where, why, and what to do; and whether a call can have its ports.
#![tactic(auto)]

mod call_ports;
mod causes;
mod forms;
mod inputs;
mod lines;
mod mem_ports;
mod name_texts;
mod names;
mod packets;
mod ports;
mod real_ports;
mod refusals;
mod reports;
mod sentences;
mod streams;
mod trunks;

pub use call_ports::Ports;
pub use inputs::{leg_told, legs_in, most_of_input};
pub use mem_ports::MemPorts;
pub use name_texts::told_character;
pub use names::{conf_kind_name, frame_kind_name};
pub use ports::{links_in, ports_told};
pub use real_ports::RealPorts;
pub use reports::{Report, report_of};
pub use trunks::{is_on_trunk, odd_line};
