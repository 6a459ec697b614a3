//! What was counted of the legs of a live call.
ghost use Rattle.std.specs.Prelude.{◌≡◌, ◌≤◌, ◌++◌, length, OnOk};
ghost use Rattle.file_spec.specs.Conferences.{meaning_of};
ghost use Rattle.file_spec.specs.declared.limits.TheConstants.{MOST_LINKS};
ghost use Rattle.view_spec.specs.Tallies.{tally_line};
ghost use Rattle.rtt_live.specs.Tallies.{as_tally, asked_lines, tallies_in, tally_lines};

use crate::ViewParts;
use arrayvec::ArrayVec;
use file_spec::limits::MOST_LINKS;
use file_spec::{Conference, LegLine};
use link_io::LinkIn;
use live_leg::{LegTally, LinkLeg};
use rtt_base::{Bytes, NoMemory};
use std::alloc::Global;
use t140_text::views::append_tally;
use view_spec::Tally;

/// What each leg counted, in leg order.
pub(crate) fn tallies_of<L: LinkIn>(legs: &[LinkLeg<L>]) -> ArrayVec<LegTally, MOST_LINKS>
    requires { length legs.now ≤ MOST_LINKS }
    ensures { result.items ≡ tallies_in legs.now }
{
    let mut tallies = ArrayVec::new();
    for leg in legs {
        tallies.push(leg.tally());
    }
    tallies
}

/// What a leg counted, as it is printed.
fn tally_of(counted: LegTally) -> Tally
    ensures { result ≡ as_tally counted }
{
    Tally {
        came: counted.came,
        text: counted.text,
        refused: counted.refused,
        foreign: counted.foreign,
        senders: counted.senders,
    }
}

/// Appends the line of what a leg counted. It is made in place of the one before it.
fn add_tally(
    alloc: Global,
    leg: &LegLine,
    counted: LegTally,
    line: &mut Bytes,
    views: &mut ViewParts,
) -> Result<(), NoMemory>
    ensures { OnOk result (views.new ≡ views.old ++ tally_line leg.now.name (as_tally counted)) }
{
    line.clear();
    append_tally(leg.name.as_slice(), tally_of(counted), line)?;
    views.append(alloc, line.as_slice())
}

/// Appends a line for each of these legs, which counted that.
fn append_counts(
    alloc: Global,
    legs: &[LegLine],
    tallies: &[LegTally],
    views: &mut ViewParts,
) -> Result<(), NoMemory>
    requires each { length tallies.now ≡ length legs.now }
    ensures { OnOk result (views.new ≡ views.old ++ tally_lines legs.now tallies.now) }
{
    let mut line = Bytes::new(alloc);
    for leg in 0..legs.len() {
        add_tally(alloc, &legs[leg], tallies[leg], &mut line, views)?;
    }
    Ok(())
}

/// Appends what each leg counted, in leg order, where the conference asks for it.
pub(crate) fn append_counted(
    alloc: Global,
    conference: &Conference,
    tallies: &[LegTally],
    views: &mut ViewParts,
) -> Result<(), NoMemory>
    requires each { length tallies.now ≡ length conference.now.legs }
    ensures { OnOk result (views.new ≡ views.old ++ asked_lines (meaning_of conference.now) tallies.now) }
{
    if conference.service.counts {
        append_counts(alloc, conference.legs.as_slice(), tallies, views)?;
    }
    Ok(())
}
