//! Mixes a conference over recordings, which are read on threads of their own, or by the caller: what is sent to each terminal,
//! and what is seen there.
#![tactic(auto)]

mod hearings;
mod jobs;
mod known_lines;
mod legs;
mod log_mixers;
mod logs;
mod mixes;
mod parts;
mod pieces;
mod readers;
mod results;
mod sent_views;
mod showing;
mod threads;
mod views;

pub use hearings::LegHearing;
pub use legs::leg_over;
pub use mixes::{InputReturn, input_limit, mix, mix_held, mix_opened};
pub use pieces::Piece;
pub use readers::{Readers, mix_legs};
pub use results::{MixFault, Mixed};
pub use threads::LegReturn;
pub use views::{TerminalViews, views_of};
