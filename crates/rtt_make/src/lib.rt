//! The conference that is made from a number, and what is typed in it.
#![tactic(auto)]

mod conferences;
mod counts;
mod draws;
mod legs;
mod plans;
mod scripts;
mod senders;
mod summaries;
mod texts;

pub use conferences::{Made, Scripts, Seqs, make_conf};
pub use senders::recordings_of;
pub use summaries::{Totals, summary_of};
