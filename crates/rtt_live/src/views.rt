//! What the terminals of a live call show.
ghost use Rattle.std.specs.Prelude.{◌≡◌, ◌<◌, true, false, length, IfOk, OnOk};
ghost use Rattle.file_spec.specs.Conferences.{meaning_of};
ghost use Rattle.rtt_live.specs.Listeners.{AppendsView, AppendsViewTo, ArePrintedOf, AreViewsOf};
ghost use Rattle.live_spec.specs.Served.{end_line};
ghost use Rattle.rtt_live.specs.Reports.{end_of};

use crate::speakers::settings_at;
use crate::tallies::append_counted;
use crate::{Listener, LiveEnd, ViewParts};
use file_spec::{Conference, others};
use live_leg::LegTally;
use rtt_base::{Bytes, NoMemory};
use std::alloc::Global;
use terminal::View;

/// Appends what is seen at the aware terminal of a leg.
fn append_aware(
    alloc: Global,
    conference: &Conference,
    own: usize,
    listener: Listener,
    views: &mut Bytes,
) -> Result<(), NoMemory>
    requires own { own < length conference.now.legs }
    ensures { OnOk result (AppendsViewTo true (meaning_of conference.now) own listener views.old views.new) }
{
    let leg = &conference.legs.as_slice()[own];
    let speakers = others(alloc, conference.legs.as_slice(), own)?;
    let terminal = listener.finished(settings_at(conference, leg), speakers.sources.as_slice())?;
    let view = View::Aware {
        name: &leg.name,
        names: speakers.names.as_slice(),
    };
    terminal.append_view(alloc, view, views)
}

/// Appends what is seen at the terminal of a leg that is not aware.
fn append_unaware(
    alloc: Global,
    conference: &Conference,
    own: usize,
    listener: Listener,
    views: &mut Bytes,
) -> Result<(), NoMemory>
    requires own { own < length conference.now.legs }
    ensures { OnOk result (AppendsViewTo false (meaning_of conference.now) own listener views.old views.new) }
{
    let leg = &conference.legs.as_slice()[own];
    let terminal = listener.finished(settings_at(conference, leg), &[conference.mixer.ssrc])?;
    terminal.append_view(alloc, View::Unaware { name: &leg.name }, views)
}

/// Appends what is seen at the terminal of a leg.
fn append_view(
    alloc: Global,
    conference: &Conference,
    own: usize,
    listener: Listener,
    view: &mut Bytes,
) -> Result<(), NoMemory>
    requires own { own < length conference.now.legs }
    ensures { OnOk result (AppendsView (meaning_of conference.now) own listener view.old view.new) }
{
    if conference.legs.as_slice()[own].aware {
        append_aware(alloc, conference, own, listener, view)
    } else {
        append_unaware(alloc, conference, own, listener, view)
    }
}

/// Appends what is seen at the terminal of a leg to what is seen at others. It is made in place of the one before it, and what the
/// terminal heard is let go before it is kept.
fn add_view(
    alloc: Global,
    conference: &Conference,
    own: usize,
    listener: Listener,
    view: &mut Bytes,
    views: &mut ViewParts,
) -> Result<(), NoMemory>
    requires own { own < length conference.now.legs }
    ensures { OnOk result (AppendsView (meaning_of conference.now) own listener views.old views.new) }
{
    view.clear();
    append_view(alloc, conference, own, listener, view)?;
    views.append(alloc, view.as_slice())
}

/// What is seen at the terminals of a conference, in leg order.
fn views_of(
    alloc: Global,
    conference: &Conference,
    listeners: Vec<Listener>,
) -> Result<ViewParts, NoMemory>
    requires each { length listeners.items ≡ length conference.now.legs }
    ensures { IfOk result (AreViewsOf (meaning_of conference.now) listeners.items) }
{
    let mut views = ViewParts::new(alloc);
    let mut view = Bytes::new(alloc);
    let mut own = 0;
    for listener in listeners {
        add_view(alloc, conference, own, listener, &mut view, &mut views)?;
        own += 1;
    }
    Ok(views)
}

/// The line behind the views, which says how the call ended.
fn end_line(end: LiveEnd) -> &'static [u8]
    ensures { result.now ≡ end_line (end_of end) }
{
    match end {
        LiveEnd::Done => b"-- live done\n",
        LiveEnd::Closed => b"-- live closed\n",
    }
}

/// What is printed of a conference, whose call ended so: what is seen at its terminals, in leg order, how it ended, and, where that is
/// asked for, what each leg counted.
pub fn printed(
    alloc: Global,
    conference: &Conference,
    listeners: Vec<Listener>,
    tallies: &[LegTally],
    end: LiveEnd,
) -> Result<ViewParts, NoMemory>
    requires each { length listeners.items ≡ length conference.now.legs }
    requires tallied { length tallies.now ≡ length conference.now.legs }
    ensures { IfOk result (ArePrintedOf (meaning_of conference.now) listeners.items tallies.now (end_of end)) }
{
    let mut printed = views_of(alloc, conference, listeners)?;
    printed.append(alloc, end_line(end))?;
    append_counted(alloc, conference, tallies, &mut printed)?;
    Ok(printed)
}
