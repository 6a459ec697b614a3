//! What a stream of text packets tells, and what the inbound end of a link gives: definitions, and the laws that hold of them. No
//! code stands here.
#![tactic(auto)]

mod laws;
pub mod limits;
mod one_by_one;

pub use laws::{
    carriers_decide, chunks_are_heard, heard_is_kept, heard_one_by_one, marker_stands,
    no_gap_no_marker, numbers_are_nearest, numbers_end, own_packets_tell, recordings_never_fall,
    sent_is_lawful, settled_stays, still_keeps, used_came_in_time,
};
pub use one_by_one::chunks_one_by_one;
