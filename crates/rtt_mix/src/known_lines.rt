//! The lines of what was sent of the legs, made once for all terminals that show the same.
ghost use Rattle.std.specs.Prelude.{◌≡◌, ◌<◌, true, length, IsUtf8, IfOk, IfSome};
ghost use Rattle.rtt_mix.specs.Shown.{lines_of};

use crate::pieces::Piece;
use file_spec::Conference;
use rtt_base::{Bytes, NoMemory};
use sent_log::SentLog;
use std::alloc::Global;
use std::thread;
use std::thread::Threads;
use t140_text::show;
use t140_text::views::append_source_view;

/// From how many terminals on lines are made once: of two, no leg is seen at both.
const WORTH_KEEPING: usize = 3;

/// What is printed of a source at a terminal that keeps its sources apart.
#[derive(Drop)]
pub(crate) struct KnownLines<'a> {
    name: Bytes,
    /// What was heard of it.
    text: &'a [u8],
    lines: Piece,
    ghost are: { lines ≡ lines_of name text.now },
}

/// Whether these are the lines of a source of this name and text.
fn are_of(known: &KnownLines<'_>, name: &[u8], text: &[u8]) -> bool
    ensures name { result ≡ true → known.now.name ≡ name.now }
    ensures text { result ≡ true → known.now.text.now ≡ text.now }
{
    known.name.as_slice() == name && known.text == text
}

/// The lines of a source of this name and text, if they are among these.
pub(crate) fn known_lines<'k>(
    known: &'k [KnownLines<'_>],
    name: &[u8],
    text: &[u8],
) -> Option<&'k Piece>
    ensures { IfSome result (λ lines. lines.now ≡ lines_of name.now text.now) }
{
    for one in known {
        if are_of(one, name, text) {
            return Some(&one.lines);
        }
    }
    None
}

/// A copy of these octets.
fn copy_of(alloc: Global, octets: &[u8]) -> Result<Bytes, NoMemory>
    ensures { IfOk result (λ copy. copy ≡ octets.now) }
{
    let mut copy = Bytes::new(alloc);
    copy.append(octets)?;
    Ok(copy)
}

/// The lines of a source of this name and text.
pub(crate) fn make_lines(alloc: Global, name: &[u8], text: &[u8]) -> Result<Bytes, NoMemory>
    requires { IsUtf8 text.now }
    ensures { IfOk result (λ lines. lines ≡ lines_of name.now text.now) }
{
    let shown = show(alloc, text)?;
    let mut lines = Bytes::new(alloc);
    append_source_view(name, &shown, &mut lines)?;
    Ok(lines)
}

/// The same, to be kept.
fn keep_lines<'a>(alloc: Global, name: &[u8], text: &'a [u8]) -> Result<KnownLines<'a>, NoMemory>
    requires { IsUtf8 text.now }
{
    let octets = make_lines(alloc, name, text)?;
    let lines = Piece::new(alloc, octets)?;
    let name = copy_of(alloc, name)?;
    Ok(KnownLines { name, text, lines })
}

/// What was sent of the leg with this number, counted from 0, to the first terminal for which the log has it in one piece.
fn said_of<'a>(conference: &Conference, log: &'a SentLog, leg: usize) -> Option<&'a [u8]>
    requires { leg < length conference.now.legs }
{
    let ssrc = conference.legs.as_slice()[leg].ssrc;
    let near = leg.saturating_sub(1);
    for terminal in 0..log.terminals() {
        let said = log.said(terminal, near, ssrc);
        if said.is_some() {
            return said;
        }
    }
    None
}

/// The lines of the leg with this number, counted from 0, if the log has what was sent of it in one piece.
fn lines_of_leg<'a>(
    alloc: Global,
    conference: &Conference,
    log: &'a SentLog,
    leg: usize,
) -> Result<Option<KnownLines<'a>>, NoMemory>
    requires { leg < length conference.now.legs }
{
    let Some(text) = said_of(conference, log, leg) else {
        return Ok(None);
    };
    let Ok(_) = str::from_utf8(text) else {
        return Ok(None);
    };
    let name = conference.legs.as_slice()[leg].name.as_slice();
    let lines = keep_lines(alloc, name, text)?;
    Ok(Some(lines))
}

/// The lines of all legs of which the log has what was sent in one piece, where there are terminals that share them.
pub(crate) fn lines_on_threads<'a, R: Threads + Sync>(
    rt: &R,
    alloc: Global,
    conference: &Conference,
    log: &'a SentLog,
) -> Result<Vec<KnownLines<'a>>, NoMemory> {
    let mut known = Vec::new(alloc);
    if log.terminals() < WORTH_KEEPING {
        return Ok(known);
    }
    let legs = conference.legs.len();
    let Ok(made) = thread::map_indices(
        rt,
        alloc,
        legs,
        &|leg| { lines_of_leg(alloc, conference, log, leg) },
    ) else {
        return Err(NoMemory);
    };
    for lines in made {
        if let Some(lines) = lines? {
            known.push(lines)?;
        }
    }
    Ok(known)
}
