//! What a mixer keeps of one terminal, and the terminal's turn.
#![tactic(auto)]

mod aware;
mod schedulers;
mod unaware;

pub use aware::AwareScheduler;
pub use schedulers::TerminalScheduler;
pub use unaware::UnawareScheduler;
