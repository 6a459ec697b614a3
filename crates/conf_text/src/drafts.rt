//! What the lines of a conference say, one by one and so far.
ghost use Rattle.std.specs.Prelude.{◌≡◌, ◌<◌, ◌≤◌, ◌∷◌, [], ◌++◌, length, OnOk};
ghost use Rattle.file_spec.specs.declared.limits.TheConstants.{MOST_LEGS};
ghost use Rattle.file_spec.specs.Conference.{Leg, nothing, with_entry};

use file_spec::limits::{MOST_LEGS, USUAL_GENERATIONS};
use file_spec::{
    GenerationsLine, LegLine, Legs, MixerLine, Plan, PlanLine, Service, ServiceLine, Stay,
    StayLine, set_follow, set_generations, set_long, set_stay,
};
use rtt_base::{Name, NoMemory, Path, PayloadTypes};
use std::alloc::Global;

/// A leg, its paths still in the file.
#[derive(Drop)]
pub(crate) struct NewLeg<'a> {
    pub line: u32,
    pub name: Name,
    pub aware: bool,
    pub ssrc: u32,
    pub input: &'a str,
    pub output: &'a str,
    pub payload_types: PayloadTypes,
}

/// What one line says.
#[derive(Drop)]
pub(crate) enum LineEntry<'a> {
    Leg(NewLeg<'a>),
    Generations(GenerationsLine),
    Stays(StayLine),
    Tick(u32),
    Spacing(u32),
    Wait(u32),
    Turns(u32),
    Relabel(u32),
    Mtu(u32),
    Mixer(MixerLine),
    Plan(PlanLine),
    /// The leg, counted from 0, that is followed.
    Follows(u8),
    /// The leg, counted from 0, whose texts may be long.
    Longs(u8),
    Serves(ServiceLine),
}

/// What the lines so far say.
#[derive(Drop)]
pub(crate) struct Draft {
    pub legs: Legs,
    /// The legs, counted from 0, whose generations were told.
    pub generations: Vec<u8>,
    /// The legs, counted from 0, whose stays were told.
    pub stays: Vec<u8>,
    pub tick: Option<u32>,
    pub spacing: Option<u32>,
    pub wait: Option<u32>,
    pub turns: Option<u32>,
    pub relabel: Option<u32>,
    pub mtu: Option<u32>,
    pub mixer: Option<MixerLine>,
    pub plan: Plan,
    pub service: Service,
    ghost seats: { length legs ≤ MOST_LEGS },
}

fn push_place(places: &mut Vec<u8>, place: u8) -> Result<(), NoMemory>
    ensures { OnOk result (places.new.items ≡ places.old.items ++ place ∷ []) }
{
    match places.push(place) {
        Ok(()) => Ok(()),
        Err(_) => Err(NoMemory),
    }
}

impl Draft {
    ghost use Rattle.conf_text.specs.Lines.{above_of, leg_line, meaning, MayFollow};

    pub fn new(alloc: Global) -> Draft
        ensures { above_of result ≡ nothing }
    {
        Draft {
            legs: Legs::new(alloc),
            generations: Vec::new(alloc),
            stays: Vec::new(alloc),
            tick: None,
            spacing: None,
            wait: None,
            turns: None,
            relabel: None,
            mtu: None,
            mixer: None,
            plan: Plan::new(alloc),
            service: Service::none(),
        }
    }

    fn add_leg(&mut self, alloc: Global, leg: NewLeg<'_>) -> Result<(), NoMemory>
        requires { length self.old.legs < MOST_LEGS }
        ensures { OnOk result (above_of self.new ≡ with_entry (above_of self.old) (Leg (leg_line leg.entry))) }
    {
        let input = Path::from_text(alloc, leg.input)?;
        let output = Path::from_text(alloc, leg.output)?;
        self.legs.push(LegLine {
            line: leg.line,
            name: leg.name,
            aware: leg.aware,
            ssrc: leg.ssrc,
            input,
            output,
            payload_types: leg.payload_types,
            generations: USUAL_GENERATIONS,
            stay: Stay {
                from: 0,
                until: None,
            },
            follow: false,
            long: false,
        })
    }

    /// The lines so far and one more.
    pub fn add(&mut self, alloc: Global, entry: LineEntry<'_>) -> Result<(), NoMemory>
        requires { MayFollow (above_of self.old) (meaning entry) }
        ensures { OnOk result (above_of self.new ≡ with_entry (above_of self.old) (meaning entry.entry)) }
    {
        match entry {
            LineEntry::Leg(leg) => return self.add_leg(alloc, leg),
            LineEntry::Generations(line) => {
                push_place(&mut self.generations, line.leg)?;
                set_generations(&mut self.legs, usize::from(line.leg), line.generations);
            }
            LineEntry::Stays(line) => {
                push_place(&mut self.stays, line.leg)?;
                set_stay(&mut self.legs, usize::from(line.leg), line.stay);
            }
            LineEntry::Tick(value) => self.tick = Some(value),
            LineEntry::Spacing(value) => self.spacing = Some(value),
            LineEntry::Wait(value) => self.wait = Some(value),
            LineEntry::Turns(value) => self.turns = Some(value),
            LineEntry::Relabel(value) => self.relabel = Some(value),
            LineEntry::Mtu(value) => self.mtu = Some(value),
            LineEntry::Mixer(line) => self.mixer = Some(line),
            LineEntry::Plan(line) => return self.plan.push(line),
            LineEntry::Follows(leg) => set_follow(&mut self.legs, usize::from(leg)),
            LineEntry::Longs(leg) => set_long(&mut self.legs, usize::from(leg)),
            LineEntry::Serves(line) => self.service.add(line),
        }
        Ok(())
    }
}
