//! What characters mean, how text is shown, and what is seen, counted and printed at a terminal: definitions, their laws, and
//! hardly any code.
#![tactic(auto)]

mod classes;
mod counts;
pub mod laws;
mod tallies;
pub mod text_laws;

pub use classes::CharClass;
pub use counts::Counts;
pub use tallies::Tally;
