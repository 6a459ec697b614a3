//! What `times` and `show` print of a recording, and what `check` tells of a file: definitions, and their laws.
#![tactic(auto)]

mod forms;
pub mod limits;
mod ports;
pub mod show_laws;
mod streams;
pub mod times_laws;

pub use forms::{FileForm, LineWord};
pub use ports::PortFault;
pub use streams::Stream;
