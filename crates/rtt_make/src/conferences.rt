//! The conference, with the script and the first sequence number of each leg.
ghost use Rattle.std.specs.Prelude.{◌≡◌, ◌==◌, ◌<◌, ◌≤◌, ◌++◌, [], ◌∷◌, map, IfOk};
ghost use Rattle.file_spec.specs.Kept.{IsConference};
ghost use Rattle.file_spec.specs.Conferences.{meaning_of};
ghost use Rattle.command_spec.specs.Draws.{times};
ghost use Rattle.command_spec.specs.Generated.{conference_of, generated, typist};
ghost use Rattle.rtt_make.specs.Mades.{made_of};

use crate::draws::Draws;
use crate::legs::legs_of;
use crate::plans::draw_plan;
use crate::scripts::draw_typist;
use file_spec::limits::{MOST_TURNS, USUAL_SPACING, USUAL_TICK};
use file_spec::{Conference, MixerLine, Plan, Service};
use rtt_base::limits::USUAL_WAIT;
use rtt_base::{GrowingList, NoMemory};
use script_text::Script;
use std::alloc::Global;

/// The mixer's SSRC. Its sequence numbers and its timestamps begin with 0.
const MIXER_SSRC: u32 = 1;

/// A conference has two legs and up to so many more, less one.
const MORE_LEGS: u32 = 15;

/// Scripts in leg order. Contracts see the lines of each.
pub type Scripts = GrowingList<Script>;

/// First sequence numbers in leg order.
pub type Seqs = GrowingList<u16>;

/// What all legs type, and their first sequence numbers.
#[derive(Debug, Drop)]
struct TypedScripts {
    scripts: Scripts,
    seqs: Seqs,
}

/// A conference that was made from a number, with the script and the first sequence number of each of its legs.
#[derive(Debug, Drop)]
pub struct Made {
    pub conference: Conference,
    pub scripts: Scripts,
    pub seqs: Seqs,
}

/// Draws what so many legs type.
fn draw_typed(alloc: Global, draws: &mut Draws, legs: u32) -> Result<TypedScripts, NoMemory>
    ensures scripts { IfOk result (λ t. t.scripts ≡ map (λ x. x.script) (times legs typist draws.old).0) }
    ensures seqs { IfOk result (λ t. t.seqs ≡ map (λ x. x.first) (times legs typist draws.old).0) }
    ensures state { IfOk result (λ _. draws.new ≡ (times legs typist draws.old).1) }
{
    let mut scripts = Scripts::new(alloc);
    let mut seqs = Seqs::new(alloc);
    for _ in 0..legs {
        let typist = draw_typist(alloc, draws)?;
        seqs.push(typist.seq)?;
        scripts.push(typist.script)?;
    }
    Ok(TypedScripts { scripts, seqs })
}

/// The conference of so many legs with this plan.
fn conference_with(alloc: Global, legs: u32, plan: Plan) -> Result<Conference, NoMemory>
    requires few { legs ≤ 100 }
    requires keeps { IsConference (conference_of legs plan) }
    ensures { IfOk result (λ conference. meaning_of conference ≡ conference_of legs plan) }
{
    let legs = legs_of(alloc, legs)?;
    Ok(Conference {
        legs,
        tick: USUAL_TICK,
        spacing: USUAL_SPACING,
        wait: USUAL_WAIT,
        turns: MOST_TURNS,
        relabel: None,
        mtu: None,
        mixer: MixerLine {
            ssrc: MIXER_SSRC,
            seq: 0,
            timestamp: 0,
        },
        plan,
        service: Service::none(),
    })
}

/// Makes the conference of a number, which is the same each time.
pub fn make_conf(alloc: Global, number: u32) -> Result<Made, NoMemory>
    ensures { IfOk result (λ made. made_of made ≡ generated number) }
{
    let mut draws = Draws::new(number);
    let legs = 2 + draws.draw(MORE_LEGS);
    let typed = draw_typed(alloc, &mut draws, legs)?;
    let plan = draw_plan(alloc, &mut draws, legs)?;
    let conference = conference_with(alloc, legs, plan)?;
    Ok(Made {
        conference,
        scripts: typed.scripts,
        seqs: typed.seqs,
    })
}
