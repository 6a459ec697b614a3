//! The inputs of a conference are heard: for names and leavings, or to be counted.
ghost use Rattle.std.specs.Prelude.{◌≡◌, ◌≢◌, ◌<◌, ◌≤◌, [], length, IfOk, IfErr, OnOk, OnErr};
ghost use Rattle.std.specs.Vec.{vec_capacity};
ghost use Rattle.rtt_io.specs.Names.{CountsNoOther, NoneFalls, Same};
ghost use Rattle.rtpdump_io.specs.Reading.{UnlessOfSource};
ghost use Rattle.wire_spec.specs.declared.limits.TheConstants.{MOST_RECORDING_OCTETS};
ghost use Rattle.file_spec.specs.declared.limits.TheConstants.{MOST_LEGS};
ghost use Rattle.file_spec.specs.Conferences.{meaning_of};
ghost use Rattle.rtt_mix.specs.Mixes.{IsFirstIn, StopsIn};
ghost use Rattle.command_spec.specs.Mixing.{counts_lines};
ghost use Rattle.rtt_attend.specs.Heard.{Hears, sender_of};
ghost use Rattle.rtt_attend.specs.Opened.{AreInputs, FailedIn, HeardIn, UnheardIn};
ghost use Rattle.command_spec.specs.Inputs.{inputs_under};
ghost use Rattle.command_spec.specs.Work.{Contents};
ghost use Rattle.rtt_attend.specs.Named.{AreCounted, AreTold, IsNamed, IsNamedSome, NoneFailedWith};

use crate::inputs::{InputNames, Sender, hear_input};
use crate::leg_changes::tell_legs;
use crate::open_inputs::{close_inputs, open_inputs};
use crate::source_notes::SourceNotes;
use file_spec::{Conference, LegLine};
use rtpdump_io::DumpFault;
use rtt_base::{Bytes, NoMemory, Packet, TextPacket};
use rtt_io::World;
use rtt_mix::{MixFault, input_limit};
use std::alloc::Global;
use t140_text::views::append_tally;
use wire_spec::Events;

/// What the input of a leg tells of it. Its source, of which nothing was read, is handed back.
fn hear_leg<W: World>(
    leg: &LegLine,
    limit: u32,
    source: W::Src,
    world: &mut W,
    octets: &mut Packet,
    text: &mut TextPacket,
    events: &mut Events,
) -> Result<SourceNotes, DumpFault>
    requires limit { limit ≤ MOST_RECORDING_OCTETS }
    requires fresh { W.Src.faults source ≡ 0 }
    ensures hears { W.Src.tells → Hears limit (sender_of leg.now) (W.Src.left source) result }
    ensures read { IfErr result (FailedIn W.object_faults (W.Src.name source) world.old world.new) }
    ensures calm { UnlessOfSource result (Same W.object_faults world.old world.new) }
    ensures no_other { W.tells → CountsNoOther W.contents W.object_faults (W.Src.name source)
        world.old world.new }
    ensures objects_never_fall { NoneFalls W.object_faults world.old world.new }
    ensures same_own { Same W.own_faults world.old world.new }
    ensures same_contents { W.tells → Same W.contents world.old world.new }
{
    let InputNames { source, said } = hear_input(
        source,
        Sender {
            ssrc: leg.ssrc,
            payload_types: leg.payload_types,
            long: leg.long,
        },
        limit,
        octets,
        text,
        events,
    );
    world.done_src(source);
    said
}

/// What the inputs of all legs tell of them, in leg order, up to the first that can't be read to its end. All sources are
/// handed back. There is room for what they tell.
fn hear_inputs<W: World>(
    legs: &[LegLine],
    limit: u32,
    sources: Vec<W::Src>,
    world: &mut W,
    mut all: Vec<SourceNotes>,
) -> Result<Vec<SourceNotes>, MixFault>
    requires limit { limit ≤ MOST_RECORDING_OCTETS }
    requires few { length legs.now ≤ MOST_LEGS }
    requires count { length sources.items ≡ length legs.now }
    requires opened { AreInputs W.tells W.Src.left W.Src.faults W.Src.name (W.contents world.old)
        legs.now sources.items }
    requires shown { W.tells → 0 < length legs.now → W.Src.tells }
    requires none { all.items ≡ [] }
    requires room { length legs.now ≤ vec_capacity all }
    ensures heard { W.tells → IfOk result (HeardIn W.contents world.old limit legs.now) }
    ensures count { IfOk result (λ all. length all.items ≡ length legs.now) }
    ensures calm { OnOk result (Same W.object_faults world.old world.new) }
    ensures unheard { IfErr result (UnheardIn W.tells W.contents W.object_faults
        world.old world.new limit legs.now) }
    ensures objects_never_fall { NoneFalls W.object_faults world.old world.new }
    ensures same_own { Same W.own_faults world.old world.new }
    ensures same_contents { W.tells → Same W.contents world.old world.new }
{
    let mut octets = Packet::new();
    let mut text = TextPacket::default();
    let mut events = Events::new();
    let mut rest = sources.into_iter();
    while let Some(source) = rest.next() {
        let number = all.len();
        match hear_leg(
            &legs[number],
            limit,
            source,
            world,
            &mut octets,
            &mut text,
            &mut events,
        ) {
            Ok(said) => all.push_reserved(said),
            Err(fault) => {
                close_inputs(rest, world);
                return Err(MixFault::Dump {
                    leg: number as u8,
                    fault,
                });
            }
        }
    }
    rest.destroy_empty();
    Ok(all)
}

/// What the inputs of all legs tell of them, in leg order. All are opened before one is read, and each is handed back. A fault
/// means what it means of a mixing of the same conference.
fn hear_all<W: World>(
    alloc: Global,
    conference: &Conference,
    world: &mut W,
) -> Result<Vec<SourceNotes>, MixFault>
    ensures told { W.tells → IfOk result (λ all. AreTold (W.contents world.old) (meaning_of conference.now) all.items) }
    ensures count { IfOk result (λ all. length all.items ≡ length conference.now.legs) }
    ensures stops { IfErr result (StopsIn W.tells W.contents W.own_faults W.object_faults
        world.old world.new (meaning_of conference.now)) }
    ensures in_time { IfErr result (λ fault. fault ≢ MixFault.TooLong) }
    ensures none_failed { IfErr result (NoneFailedWith W.tells W.object_faults
        world.old world.new (meaning_of conference.now)) }
    ensures first { IfErr result (IsFirstIn W.tells W.contents W.own_faults
        world.old world.new conference.now.legs) }
    ensures calm { OnOk result (Same W.object_faults world.old world.new) }
    ensures opened { OnOk result (Same W.own_faults world.old world.new) }
    ensures same_contents { W.tells → Same W.contents world.old world.new }
    ensures calls_never_fall { NoneFalls W.own_faults world.old world.new }
    ensures objects_never_fall { NoneFalls W.object_faults world.old world.new }
{
    let limit = input_limit(conference);
    let lines = conference.legs.as_slice();
    let Ok(all) = Vec::with_capacity(alloc, lines.len()) else {
        return Err(MixFault::NoMemory);
    };
    let sources = match open_inputs(alloc, lines, world) {
        Ok(sources) => sources,
        Err(fault) => return Err(fault),
    };
    let said = match hear_inputs(lines, limit, sources, world, all) {
        Ok(said) => said,
        Err(fault) => return Err(fault),
    };
    Ok(said)
}

/// The conference with the names and the leavings that the RTCP records of its inputs tell. All inputs are opened in leg
/// order before one is read, and each is handed back. A fault means what it means of a mixing of the same conference, and the
/// conference is as before then.
pub fn hear_names<W: World>(
    alloc: Global,
    conference: &mut Conference,
    world: &mut W,
) -> Result<(), MixFault>
    ensures named { W.tells → OnOk result (IsNamed (W.contents world.old) (meaning_of conference.old)
        (meaning_of conference.new)) }
    ensures named_some { OnOk result (IsNamedSome (meaning_of conference.old) (meaning_of conference.new)) }
    ensures unchanged { OnErr result (meaning_of conference.new ≡ meaning_of conference.old) }
    ensures stops { IfErr result (StopsIn W.tells W.contents W.own_faults W.object_faults
        world.old world.new (meaning_of conference.old)) }
    ensures in_time { IfErr result (λ fault. fault ≢ MixFault.TooLong) }
    ensures none_failed { IfErr result (NoneFailedWith W.tells W.object_faults
        world.old world.new (meaning_of conference.old)) }
    ensures first { IfErr result (IsFirstIn W.tells W.contents W.own_faults
        world.old world.new conference.old.legs) }
    ensures calm { OnOk result (Same W.object_faults world.old world.new) }
    ensures opened { OnOk result (Same W.own_faults world.old world.new) }
    ensures same_contents { W.tells → Same W.contents world.old world.new }
    ensures calls_never_fall { NoneFalls W.own_faults world.old world.new }
    ensures objects_never_fall { NoneFalls W.object_faults world.old world.new }
{
    let wait = conference.wait;
    let said = match hear_all(alloc, conference, world) {
        Ok(said) => said,
        Err(fault) => return Err(fault),
    };
    tell_legs(&mut conference.legs, wait, said.as_slice());
    Ok(())
}

/// One line for each of these legs, in leg order, of what was counted of its input.
fn lines_of(alloc: Global, conference: &Conference, all: &[SourceNotes]) -> Result<Bytes, NoMemory>
    requires each { length all.now ≡ length conference.now.legs }
    ensures { IfOk result (λ lines. (held : Contents) → AreTold held (meaning_of conference.now) all.now
        → lines ≡ counts_lines (meaning_of conference.now) (inputs_under held conference.now.legs)) }
{
    let legs = conference.legs.as_slice();
    let mut lines = Bytes::new(alloc);
    for number in 0..legs.len() {
        append_tally(legs[number].name.as_slice(), all[number].tally, &mut lines)?;
    }
    Ok(lines)
}

/// What is counted of the inputs, one line for each leg, in leg order; nothing, where the conference doesn't ask for it. Each input
/// is read to its end. A fault means what it means of a mixing of the same conference.
pub fn count_inputs<W: World>(
    alloc: Global,
    conference: &Conference,
    world: &mut W,
) -> Result<Bytes, MixFault>
    ensures counted { W.tells → IfOk result (AreCounted (W.contents world.old) (meaning_of conference.now)) }
    ensures stops { IfErr result (StopsIn W.tells W.contents W.own_faults W.object_faults
        world.old world.new (meaning_of conference.now)) }
    ensures in_time { IfErr result (λ fault. fault ≢ MixFault.TooLong) }
    ensures none_failed { IfErr result (NoneFailedWith W.tells W.object_faults
        world.old world.new (meaning_of conference.now)) }
    ensures first { IfErr result (IsFirstIn W.tells W.contents W.own_faults
        world.old world.new conference.now.legs) }
    ensures calm { OnOk result (Same W.object_faults world.old world.new) }
    ensures opened { OnOk result (Same W.own_faults world.old world.new) }
    ensures same_contents { W.tells → Same W.contents world.old world.new }
    ensures calls_never_fall { NoneFalls W.own_faults world.old world.new }
    ensures objects_never_fall { NoneFalls W.object_faults world.old world.new }
{
    if !conference.service.counts {
        return Ok(Bytes::new(alloc));
    }
    let all = match hear_all(alloc, conference, world) {
        Ok(all) => all,
        Err(fault) => return Err(fault),
    };
    match lines_of(alloc, conference, all.as_slice()) {
        Ok(lines) => Ok(lines),
        Err(NoMemory) => Err(MixFault::NoMemory),
    }
}
