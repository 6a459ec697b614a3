//! A packetizer of text (RFC 4103): the redundancy of each source, what a terminal is sent that tells sources apart (RFC 9071),
//! and a sender of what is typed.
#![tactic(auto)]

mod output_laws;
mod outputs;
mod sender_laws;
mod senders;
mod slots;
mod speakers;
mod waiting_text;
mod window_laws;
mod windows;

pub use output_laws::{output_is_lawful, packets_are_own};
pub use outputs::{Packetizer, PacketizerSettings};
pub use sender_laws::{
    all_is_sent_in_order, due_from_next, end_is_closed, front_is_longest, history_is_lawful,
    sent_packets_are_own,
};
pub use senders::{Sender, SenderSettings};
pub use window_laws::{packets_fit, windows_repeat};
pub use windows::Window;
