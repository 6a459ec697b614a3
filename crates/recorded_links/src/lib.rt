//! Links whose datagrams and packets are recorded as the call runs: each becomes a record of a file that grows.
#![tactic(auto)]

mod arrivals;
mod backlogs;
mod batches;
mod call_recordings;
mod calls;
mod endings;
mod ends;
mod handovers;
mod journals;
mod links;
mod mem_journals;
mod names;
mod noter_places;
mod noters;
mod notes;
mod octets;
mod openings;
mod passes;
mod places;
mod positions;
mod real_journals;
mod recorders;
mod rule;
mod shelves;
mod starts;
mod tracks;
mod writers;

pub use call_recordings::CallRecording;
pub use calls::{Call, CallTrack};
pub use ends::{RecordedIn, RecordedOut};
pub use journals::Journals;
pub use links::{LinksReturn, RecordedLinks};
pub use mem_journals::MemJournals;
pub use names::{Way, file_name, stem_of};
pub use real_journals::{GrowingFile, RealJournals};
pub use recorders::{RecordFault, Recorder};
pub use starts::{BeginFault, start_of};

#[cfg(test)]
mod arrival_tests;
#[cfg(test)]
mod journal_tests;
#[cfg(test)]
mod recorder_tests;
#[cfg(test)]
mod tests;
