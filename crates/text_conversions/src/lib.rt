//! Conversions of typed text: a script, or the frames of a reliable channel (RFC 8865), sent as a recording, and a recording that
//! is heard as frames.
#![tactic(auto)]

mod batches;
mod channels;
mod fronts;
mod readers;
mod recorders;
mod relay_faults;
mod relay_laws;
mod relays;
mod scripts;
mod send_faults;
mod send_laws;
mod writers;

pub use batches::{FrameBatch, MOST_BATCH_FRAMES};
pub use channels::channel_file;
pub use file_spec::{Frame, FrameKind, FrameRefusal};
pub use fronts::{FramePosition, FrameView, first_frame};
pub use readers::FrameReader;
pub use relay_faults::{ChannelFault, RelayFault};
pub use relay_laws::channels_give_back;
pub use relays::relay_frames;
pub use scripts::{send_script, usual_settings};
pub use send_faults::SendFault;
pub use send_laws::{
    accepted_scripts_are_lines, ends_agree, scripts_end, sent_arrives, sent_history, sent_is_heard,
    sent_is_read_back,
};
pub use writers::write_frame;
