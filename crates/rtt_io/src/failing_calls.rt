//! Calls that are to fail.
ghost use Rattle.std.specs.Prelude.{◌≡◌, ◌==◌, [], ◌∷◌, ◌++◌, OnOk, OnErr};
ghost use Rattle.std.specs.List.{list_any};
ghost use Rattle.rtt_io.specs.Counts.{counted};

use rtt_base::NoMemory;
use std::alloc::Global;

/// How many calls of one kind were made, and the numbers of those that are to fail. The first call has number 1.
#[derive(Debug, Drop)]
pub struct FailingCalls {
    made: u64,
    failing: Vec<u64>,
}

impl FailingCalls {
    /// No call was made, and none is to fail. It takes no memory.
    pub fn none(alloc: Global) -> FailingCalls
        ensures made { result.made ≡ 0 }
        ensures failing { result.failing.items ≡ [] }
    {
        FailingCalls {
            made: 0,
            failing: Vec::new(alloc),
        }
    }

    /// The call of this number is to fail. After `NoMemory` nothing has changed.
    pub fn fail_at(&mut self, call: u64) -> Result<(), NoMemory>
        ensures made { self.new.made ≡ self.old.made }
        ensures ok { OnOk result (self.new.failing.items ≡ self.old.failing.items ++ call ∷ []) }
        ensures err { OnErr result (self.new.failing.items ≡ self.old.failing.items) }
    {
        self.failing.push(call)?;
        Ok(())
    }

    /// Counts a call, and answers whether it is to fail.
    pub fn next_fails(&mut self) -> bool
        ensures told { result ≡ list_any (λ call. call == self.new.made) self.old.failing.items }
        ensures made { self.new.made ≡ counted self.old.made 1 }
        ensures failing { self.new.failing.items ≡ self.old.failing.items }
    {
        self.made = self.made.saturating_add(1);
        self.failing.as_slice().contains(&self.made)
    }
}
