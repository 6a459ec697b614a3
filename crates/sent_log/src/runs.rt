//! Where the texts stand that were sent of a source.
ghost use Rattle.std.specs.Prelude.{◌≡◌, ◌+◌, ◌<◌, ◌^◌, All, IfOk, vec_len};
ghost use Rattle.sent_log.specs.Runs.{Follows, empty_run};

use rtt_base::NoMemory;
use std::alloc::Global;

/// Where the texts of a source that were sent to a terminal stand in the list of the source.
#[derive(Clone, Copy, Debug)]
pub struct Run {
    /// Where the first begins.
    pub from: usize,
    /// Where the last ends: the next is expected there.
    pub to: usize,
    /// Whether they stand one behind the other.
    pub joined: bool,
}

impl Run {
    /// Of no text.
    pub fn new() -> Run
        ensures { result ≡ empty_run }
    {
        Run {
            from: 0,
            to: 0,
            joined: true,
        }
    }

    /// One text more stands at this place, of so many octets.
    pub fn follow(&mut self, place: usize, len: usize)
        requires { place + len < 2 ^ 64 }
        ensures { Follows self.old place len self.new }
    {
        if place != self.to {
            self.joined = self.joined && self.from == self.to;
            self.from = place;
        }
        self.to = place + len;
    }
}

/// So many of no text.
pub fn empty_runs(alloc: Global, count: usize) -> Result<Vec<Run>, NoMemory>
    ensures count { IfOk result (λ runs. vec_len runs ≡ count) }
    ensures empty { IfOk result (λ runs. All (λ run. run ≡ empty_run) runs.items) }
{
    let mut runs = Vec::with_capacity(alloc, count)?;
    for _number in 0..count {
        runs.push(Run::new())?;
    }
    Ok(runs)
}
