//! A mixing that is to run.
use file_spec::LegLine;
use leg::LegInlet;
use mix_loop::{Answer, MixEnd, Room};
use rtpdump_io::DumpFault;
use rtt_base::NoMemory;
use rtt_io::{Gate, Source};
use workers::{Worker, WorkerRoom};

/// A leg that runs.
pub(crate) type RecordingWorker<S, G> = Worker<Answer<DumpFault>, LegInlet<S>, G>;

/// What is to be mixed, and by whom.
pub(crate) struct Task<'l, S: Source, M> {
    pub(crate) legs: Vec<LegInlet<S>>,
    pub(crate) lines: &'l [LegLine],
    pub(crate) mixer: M,
    pub(crate) tick: u64,
    pub(crate) turns: u64,
}

/// The same, with all memory that it needs where each leg has a thread.
pub(crate) struct MixJob<'l, S: Source, M, G: Gate> {
    pub(crate) task: Task<'l, S, M>,
    pub(crate) lanes: WorkerRoom<Answer<DumpFault>, LegInlet<S>, G>,
    pub(crate) room: Room<RecordingWorker<S, G>>,
}
