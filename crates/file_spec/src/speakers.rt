//! Those to whom a terminal listens.
ghost use Rattle.std.specs.Prelude.{◌≡◌, ◌<◌, ◌+◌, ◌++◌, length, remove, IfOk, OnOk};
ghost use Rattle.file_spec.specs.Speakers.{AreNamed, names_of, ssrcs_of};

use crate::LegLine;
use crate::names::name_of;
use rtt_base::{Name, NoMemory};
use std::alloc::Global;

/// Those to whom an aware terminal listens, in leg order.
#[derive(Drop)]
pub struct Speakers {
    /// Their SSRCs.
    pub sources: Vec<u32>,
    pub names: Vec<Name>,
}

/// Appends these legs.
fn push_speakers(
    legs: &[LegLine],
    sources: &mut Vec<u32>,
    names: &mut Vec<Name>,
) -> Result<(), NoMemory>
    requires { AreNamed legs.now }
    ensures sources { OnOk result (sources.new.items ≡ sources.old.items ++ ssrcs_of legs.now) }
    ensures names { OnOk result (names.new.items ≡ names.old.items ++ names_of legs.now) }
{
    for leg in legs {
        sources.push(leg.ssrc)?;
        names.push(name_of(leg.name.as_str()))?;
    }
    Ok(())
}

/// All legs but the one with this number.
pub fn others(alloc: Global, legs: &[LegLine], own: usize) -> Result<Speakers, NoMemory>
    requires own { own < length legs.now }
    requires named { AreNamed legs.now }
    ensures sources { IfOk result (λ speakers. speakers.sources.items ≡ ssrcs_of (remove legs.now own)) }
    ensures names { IfOk result (λ speakers. speakers.names.items ≡ names_of (remove legs.now own)) }
{
    let mut sources = Vec::with_capacity(alloc, legs.len())?;
    let mut names = Vec::with_capacity(alloc, legs.len())?;
    push_speakers(&legs[..own], &mut sources, &mut names)?;
    push_speakers(&legs[own + 1..], &mut sources, &mut names)?;
    Ok(Speakers { sources, names })
}
