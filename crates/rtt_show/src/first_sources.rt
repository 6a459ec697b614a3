//! The sources of a stream.
ghost use Rattle.std.specs.Prelude.{◌≡◌, ◌==◌, ◌+◌, ◌<◌, ◌≤◌, ◌^◌, OnOk, []};
ghost use Rattle.std.specs.List.{list_any};
ghost use Rattle.command_spec.specs.Firsts.{firsts, with_name};
ghost use Rattle.rtt_show.specs.Surveys.{firsts_of};

use rtt_base::NoMemory;
use rtt_base::limits::MOST_SOURCES;
use std::alloc::Global;

/// The first 64 sources that are named, and how often another was named.
#[derive(Drop)]
pub struct FirstSources {
    pub kept: Vec<u32>,
    pub others: u64,
}

/// Whether the source is one of these.
fn is_one_of(kept: &[u32], source: u32) -> bool
    ensures { result ≡ list_any (λ x. x == source) kept.now }
{
    kept.iter().any(|one| *one == source)
}

impl FirstSources {
    /// None was named yet.
    pub fn new(alloc: Global) -> FirstSources
        ensures none { firsts_of result ≡ firsts [] }
        ensures others { result.others ≡ 0 }
    {
        FirstSources {
            kept: Vec::new(alloc),
            others: 0,
        }
    }

    /// A source is named.
    pub fn name(&mut self, source: u32) -> Result<(), NoMemory>
        requires few { self.old.others < 2 ^ 32 }
        ensures named { OnOk result (firsts_of self.new ≡ with_name (firsts_of self.old) source) }
        ensures others { self.new.others ≤ self.old.others + 1 }
    {
        if is_one_of(self.kept.as_slice(), source) {
            return Ok(());
        }
        if self.kept.len() < MOST_SOURCES {
            self.kept.push(source)?;
            return Ok(());
        }
        self.others += 1;
        Ok(())
    }
}
