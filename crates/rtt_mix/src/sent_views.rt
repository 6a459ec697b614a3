//! The view of an aware terminal that hears all as it was sent, made of the texts where they lie.
ghost use Rattle.std.specs.Prelude.{◌≡◌, ◌++◌, ◌<◌, ℕ, true, length, flat_map, IsUtf8, IfOk, IfSome};
ghost use Rattle.std.specs.List.{concat};
ghost use Rattle.file_spec.specs.Conferences.{meaning_of};
ghost use Rattle.sent_log.specs.States.{OfTerminal, said, sents};
ghost use Rattle.sent_log.specs.Files.{recording_at};
ghost use Rattle.playback.specs.Written.{IsPlayable};
ghost use Rattle.view_spec.specs.Views.{aware_view, source_view};
ghost use Rattle.terminal.specs.Terminals.{all_used};
ghost use Rattle.rtt_mix.specs.SentViews.{IsSentView, said_of};

use crate::known_lines::KnownLines;
use crate::pieces::Piece;
use crate::showing::{add_counts, add_lines, add_title};
use crate::views::settings_at;
use file_spec::Conference;
use playback::hears_as_sent;
use rtt_base::{Name, NoMemory};
use sent_log::SentLog;
use std::alloc::Global;
use t140_text::Counts;

/// Adds what each source shows of what was sent to the terminal, and answers whether the log has the text of each in one piece. Else
/// some may be added.
fn add_said(
    alloc: Global,
    sources: &[u32],
    names: &[Name],
    log: &SentLog,
    terminal: usize,
    known: &[KnownLines<'_>],
    pieces: &mut Vec<Piece>,
) -> Result<bool, NoMemory>
    requires each { length names.now ≡ length sources.now }
    requires terminal { terminal < length log.now }
    requires utf8 { OfTerminal log.now terminal (λ x. (source : ℕ) → IsUtf8 (said source (sents x.sent))) }
    ensures { IfOk result (λ whole. whole ≡ true → OfTerminal log.now terminal (λ x.
        concat pieces.new.items ≡ concat pieces.old.items ++ flat_map source_view (said_of names.now sources.now (sents x.sent)))) }
{
    for place in 0..sources.len() {
        let Some(text) = log.said(terminal, place, sources[place]) else {
            return Ok(false);
        };
        add_lines(alloc, names[place].as_slice(), text, known, pieces)?;
    }
    Ok(true)
}

/// The view of an aware terminal of this name, with sources of these names, that hears all as it was sent, if the log has the text
/// of each in one piece.
fn view_as_sent(
    alloc: Global,
    name: &Name,
    sources: &[u32],
    names: &[Name],
    log: &SentLog,
    terminal: usize,
    known: &[KnownLines<'_>],
) -> Result<Option<Vec<Piece>>, NoMemory>
    requires each { length names.now ≡ length sources.now }
    requires terminal { terminal < length log.now }
    requires utf8 { OfTerminal log.now terminal (λ x. (source : ℕ) → IsUtf8 (said source (sents x.sent))) }
    ensures { IfOk result (λ view. IfSome view (λ pieces. OfTerminal log.now terminal (λ x.
        concat pieces.items ≡ aware_view name.now (said_of names.now sources.now (sents x.sent)) (all_used (length x.sent))))) }
{
    let packets = log.count(terminal) as u64;
    let counts = Counts {
        packets,
        used: packets,
        refused: 0,
        foreign: 0,
    };
    let mut pieces = Vec::new(alloc);
    add_title(alloc, name, &mut pieces)?;
    let whole = add_said(alloc, sources, names, log, terminal, known, &mut pieces)?;
    if whole {
        add_counts(alloc, counts, &mut pieces)?;
        return Ok(Some(pieces));
    }
    Ok(None)
}

/// The view of the terminal of an aware leg, of the other legs with these SSRCs and names, if it hears all as it was sent and the log
/// has the text of each in one piece.
pub(crate) fn sent_view(
    alloc: Global,
    conference: &Conference,
    own: usize,
    sources: &[u32],
    names: &[Name],
    log: &SentLog,
    known: &[KnownLines<'_>],
) -> Result<Option<Vec<Piece>>, NoMemory>
    requires own { own < length conference.now.legs }
    requires each { length names.now ≡ length sources.now }
    requires log { length log.now ≡ length conference.now.legs }
    requires sent { OfTerminal log.now own IsPlayable }
    ensures { IfOk result (λ view. IfSome view (λ pieces.
        IsSentView (meaning_of conference.now) own log.now sources.now names.now pieces.items)) }
{
    let leg = &conference.legs.as_slice()[own];
    if hears_as_sent(
        settings_at(conference, leg),
        log,
        own,
        conference.plan.as_slice(),
    ) {
        return view_as_sent(alloc, &leg.name, sources, names, log, own, known);
    }
    Ok(None)
}
