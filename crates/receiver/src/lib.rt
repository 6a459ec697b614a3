//! A receiver of one stream: what is heard of its packets, whatever was lost, repeated, reordered or late, and the new text of
//! each used packet.
#![tactic(auto)]

mod answers;
mod cuts;
mod ears;
mod keep_alives;
mod piece_cursors;
mod pieces;
mod receivers;
mod settings;
mod source_texts;
mod text_ends;

pub use answers::PlainAnswer;
pub use cuts::TextCut;
pub use ears::Ear;
pub use keep_alives::is_blank;
pub use piece_cursors::PieceCursor;
pub use pieces::TextCursor;
pub use receivers::Receiver;
pub use settings::EarSettings;
pub use source_texts::SourceText;
