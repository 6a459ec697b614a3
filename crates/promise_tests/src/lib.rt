//! Tests of the contract: what a reader of `Runs`, `HeadLive` and `IsCascaded` may conclude is concluded here, from these clauses
//! and public laws alone. Each law is what somebody in a call would ask for. Where a clause becomes weaker than a law needs, this
//! crate is refused. No code stands here.
#![tactic(auto)]

mod laws;

pub use laws::{
    cascades_tell_what_was_typed, live_calls_tell_what_was_typed, loopholes_stay_shut,
    mix_tells_what_was_typed,
};
