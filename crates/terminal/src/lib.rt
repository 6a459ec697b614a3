//! A terminal: what is heard of each source in the packets that come to it, and the view of it.
#![tactic(auto)]

mod settings;
mod terminals;
mod views;

pub use receiver::SourceText;
pub use settings::TerminalSettings;
pub use t140_text::Counts;
pub use terminals::Terminal;
pub use views::View;
