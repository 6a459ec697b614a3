//! What a terminal shows, in pieces. The lines of a source that are known are not made again.
ghost use Rattle.std.specs.Prelude.{◌≡◌, ◌++◌, length, IsUtf8, OnOk, flat_map};
ghost use Rattle.std.specs.List.{concat};
ghost use Rattle.view_spec.specs.Views.{aware_title, aware_view, counts_line, source_view};
ghost use Rattle.terminal.specs.Terminals.{texts_of, AreUtf8, IsWhole, IsFinished};
ghost use Rattle.terminal.specs.Views.{named, source_shown, Fits};
ghost use Rattle.rtt_mix.specs.Shown.{AddsView, lines_of};

use crate::known_lines::{KnownLines, known_lines, make_lines};
use crate::pieces::{Piece, add_again, add_octets};
use receiver::SourceText;
use rtt_base::{Bytes, Name, NoMemory};
use std::alloc::Global;
use t140_text::Counts;
use t140_text::views::{append_aware_title, append_counts};
use terminal::{Terminal, View};

/// Adds the title of an aware terminal.
pub(crate) fn add_title(alloc: Global, name: &Name, pieces: &mut Vec<Piece>) -> Result<(), NoMemory>
    ensures { OnOk result (concat pieces.new.items ≡ concat pieces.old.items ++ aware_title name.now) }
{
    let mut octets = Bytes::new(alloc);
    append_aware_title(name.as_slice(), &mut octets)?;
    add_octets(alloc, octets, pieces)
}

/// Adds a line of counts.
pub(crate) fn add_counts(
    alloc: Global,
    counts: Counts,
    pieces: &mut Vec<Piece>,
) -> Result<(), NoMemory>
    ensures { OnOk result (concat pieces.new.items ≡ concat pieces.old.items ++ counts_line counts) }
{
    let mut octets = Bytes::new(alloc);
    append_counts(counts, &mut octets)?;
    add_octets(alloc, octets, pieces)
}

/// Adds what the source of this name shows, of which this text was heard.
pub(crate) fn add_lines(
    alloc: Global,
    name: &[u8],
    text: &[u8],
    known: &[KnownLines<'_>],
    pieces: &mut Vec<Piece>,
) -> Result<(), NoMemory>
    requires { IsUtf8 text.now }
    ensures { OnOk result (concat pieces.new.items ≡ concat pieces.old.items ++ lines_of name.now text.now) }
{
    if let Some(lines) = known_lines(known, name, text) {
        return add_again(lines, pieces);
    }
    let lines = make_lines(alloc, name, text)?;
    add_octets(alloc, lines, pieces)
}

/// Adds what one source shows.
fn add_source(
    alloc: Global,
    name: &Name,
    source: &SourceText,
    known: &[KnownLines<'_>],
    pieces: &mut Vec<Piece>,
) -> Result<(), NoMemory>
    requires { IsUtf8 source.now.text }
    ensures { OnOk result (concat pieces.new.items
        ≡ concat pieces.old.items ++ source_view (source_shown name.now source.now)) }
{
    add_lines(
        alloc,
        name.as_slice(),
        source.text.as_slice(),
        known,
        pieces,
    )
}

/// Adds what each source shows.
fn add_sources(
    alloc: Global,
    names: &[Name],
    texts: &[SourceText],
    known: &[KnownLines<'_>],
    pieces: &mut Vec<Piece>,
) -> Result<(), NoMemory>
    requires each { length names.now ≡ length texts.now }
    requires utf8 { AreUtf8 texts.now }
    ensures { OnOk result (concat pieces.new.items
        ≡ concat pieces.old.items ++ flat_map source_view (named names.now texts.now)) }
{
    for index in 0..names.len() {
        add_source(alloc, &names[index], &texts[index], known, pieces)?;
    }
    Ok(())
}

/// Adds the view of an aware terminal.
#[tactic(auto, unfolding(view_spec::specs::Views::aware_view))]
fn add_aware(
    alloc: Global,
    name: &Name,
    names: &[Name],
    texts: &[SourceText],
    counts: Counts,
    known: &[KnownLines<'_>],
    pieces: &mut Vec<Piece>,
) -> Result<(), NoMemory>
    requires each { length names.now ≡ length texts.now }
    requires utf8 { AreUtf8 texts.now }
    ensures { OnOk result (concat pieces.new.items
        ≡ concat pieces.old.items ++ aware_view name.now (named names.now texts.now) counts) }
{
    add_title(alloc, name, pieces)?;
    add_sources(alloc, names, texts, known, pieces)?;
    add_counts(alloc, counts, pieces)
}

/// Adds another view of a finished terminal, in one piece.
fn add_whole(
    alloc: Global,
    terminal: &Terminal,
    view: View<'_>,
    pieces: &mut Vec<Piece>,
) -> Result<(), NoMemory>
    requires finished { IsFinished terminal.now }
    requires fits { IsWhole terminal.now → Fits view (length (texts_of terminal.now)) }
    ensures { OnOk result (AddsView terminal.now view.entry pieces.old.items pieces.new.items) }
{
    let mut octets = Bytes::new(alloc);
    terminal.append_view(alloc, view, &mut octets)?;
    add_octets(alloc, octets, pieces)
}

/// Adds a view of a finished terminal.
pub(crate) fn add_shown(
    alloc: Global,
    terminal: &Terminal,
    view: View<'_>,
    known: &[KnownLines<'_>],
    pieces: &mut Vec<Piece>,
) -> Result<(), NoMemory>
    requires finished { IsFinished terminal.now }
    requires fits { IsWhole terminal.now → Fits view (length (texts_of terminal.now)) }
    ensures { OnOk result (AddsView terminal.now view.entry pieces.old.items pieces.new.items) }
{
    let View::Aware { name, names } = view else {
        return add_whole(alloc, terminal, view, pieces);
    };
    if terminal.is_spent() {
        return Err(NoMemory);
    }
    let texts = terminal.heard();
    add_aware(alloc, name, names, texts, terminal.counts(), known, pieces)
}
