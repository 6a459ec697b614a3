//! Packets of text: the header of RTP (RFC 3550, section 5.1), and the blocks of text behind it (RFC 2198, section 3; RFC 4103,
//! section 4).
#![tactic(auto)]

mod block_readers;
mod block_writers;
mod header_readers;
mod header_writers;
mod headers;
mod packets;
mod views;

pub use block_readers::read_blocks;
pub use block_writers::{BlockView, OlderBlocks, TextHead, write_blocks, write_text};
pub use header_readers::read_rtp;
pub use header_writers::{write_header, write_rtp};
pub use headers::{RtpHead, RtpView};
pub use packets::{read_text, read_text_within};
pub use views::{TextView, view_text, view_text_within};
