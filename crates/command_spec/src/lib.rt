//! What each command does: what it is asked for, what it reads, what it comes to, and whose words are seen behind one more mixer
//! or behind a label. Definitions and their laws, and hardly any code.
#![tactic(auto)]

pub mod cascade_laws;
mod faults;
pub mod laws;
pub mod limits;
pub mod named_laws;
mod names;
mod requests;

pub use faults::{Fault, Refusal};
pub use names::{dump_kind_name, fault_name};
pub use requests::ReadRequest;
