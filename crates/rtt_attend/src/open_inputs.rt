//! The inputs of all legs, opened and handed back.
ghost use Rattle.std.specs.Prelude.{◌≡◌, ◌<◌, ◌≤◌, length, IfOk, IfErr, OnOk};
ghost use Rattle.std.specs.Vec.Iter.{into_iter_items, into_iter_len};
ghost use Rattle.rtt_io.specs.Names.{NoneFalls, Same};
ghost use Rattle.rtt_mix.specs.Mixes.{IsFirstIn};
ghost use Rattle.rtt_mix.specs.Opened.{Unopened};
ghost use Rattle.file_spec.specs.declared.limits.TheConstants.{MOST_LEGS};
ghost use Rattle.rtt_attend.specs.Opened.{AreFresh, AreInputs};

use file_spec::LegLine;
use rtt_io::World;
use rtt_mix::MixFault;
use std::alloc::Global;
use std::vec::IntoIter;

/// Hands these back, of which no reading failed.
pub(crate) fn close_inputs<W: World>(sources: IntoIter<W::Src>, world: &mut W)
    requires fresh { AreFresh W.Src.faults (into_iter_items sources) }
    requires whole { length (into_iter_items sources) ≡ into_iter_len sources }
    ensures same_own { Same W.own_faults world.old world.new }
    ensures same_objects { Same W.object_faults world.old world.new }
    ensures same_contents { W.tells → Same W.contents world.old world.new }
{
    let mut rest = sources;
    while let Some(source) = rest.next() {
        world.done_src(source);
    }
    rest.destroy_empty();
}

/// Opens the inputs of all legs, in leg order. Where one can't be opened, or memory runs out, those before it are handed
/// back.
pub(crate) fn open_inputs<W: World>(
    alloc: Global,
    legs: &[LegLine],
    world: &mut W,
) -> Result<Vec<W::Src>, MixFault>
    requires few { length legs.now ≤ MOST_LEGS }
    ensures count { IfOk result (λ sources. length sources.items ≡ length legs.now) }
    ensures opened { IfOk result (λ sources. AreInputs W.tells W.Src.left W.Src.faults W.Src.name
        (W.contents world.old) legs.now sources.items) }
    ensures shown { W.tells → OnOk result (0 < length legs.now → W.Src.tells) }
    ensures refused { IfErr result (Unopened W.tells W.contents W.own_faults world.old world.new legs.now) }
    ensures first { IfErr result (IsFirstIn W.tells W.contents W.own_faults world.old world.new legs.now) }
    ensures own_never_falls { NoneFalls W.own_faults world.old world.new }
    ensures calm { OnOk result (Same W.own_faults world.old world.new) }
    ensures same_objects { Same W.object_faults world.old world.new }
    ensures same_contents { W.tells → Same W.contents world.old world.new }
{
    let Ok(mut sources) = Vec::with_capacity(alloc, legs.len()) else {
        return Err(MixFault::NoMemory);
    };
    for index in 0..legs.len() {
        match world.open_source(legs[index].input.as_str()) {
            Ok(source) => sources.push_reserved(source),
            Err(_) => {
                close_inputs(sources.into_iter(), world);
                return Err(MixFault::Open { leg: index as u8 });
            }
        }
    }
    Ok(sources)
}
