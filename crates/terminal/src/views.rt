//! The views of a terminal. After `NoMemory` what was printed before is as it was.
ghost use Rattle.std.specs.Prelude.{◌≡◌, ◌<◌, ◌++◌, length, IsUtf8, IfOk, OnOk, OnErr, take, flat_map};
ghost use Rattle.view_spec.specs.Views.{text_view, unaware_view, aware_view, source_view};
ghost use Rattle.t140_text.specs.Displays.{Extends, display_of};
ghost use Rattle.terminal.specs.Terminals.{texts_of, AreUtf8, IsWhole, IsFinished};
ghost use Rattle.terminal.specs.Told.{AppendsSeen};
ghost use Rattle.terminal.specs.Views.{first_shown, source_shown, named, view_of, AreShown, Fits};

use crate::Terminal;
use receiver::SourceText;
use rtt_base::{Bytes, Name, NoMemory};
use std::alloc::Global;
use t140_text::views::{
    append_aware_title, append_counts, append_source_view, append_text_view, append_unaware_title,
};
use t140_text::{Counts, Shown, show};

/// What is printed of a terminal, and how.
#[derive(Clone, Copy)]
pub enum View<'a> {
    /// The text of its one source, as `read` prints it.
    Text,
    /// What an unaware terminal of this name shows, to which all comes as one source.
    Unaware { name: &'a Name },
    /// What an aware terminal of this name shows, whose sources have these names, in their order.
    Aware { name: &'a Name, names: &'a [Name] },
}

/// What the first of these shows.
fn shown_first(alloc: Global, texts: &[SourceText]) -> Result<Shown, NoMemory>
    requires { AreShown texts.now }
    ensures { IfOk result (λ s. display_of s ≡ first_shown texts.now) }
{
    show(alloc, texts[0].text.as_slice())
}

/// Appends what one source shows.
fn append_named(
    alloc: Global,
    name: &Name,
    source: &SourceText,
    out: &mut Bytes,
) -> Result<(), NoMemory>
    requires { IsUtf8 source.now.text }
    ensures ok { OnOk result (out.new ≡ out.old ++ source_view (source_shown name.now source.now)) }
    ensures kept { Extends out.old out.new }
{
    let shown = show(alloc, source.text.as_slice())?;
    append_source_view(name.as_slice(), &shown, out)
}

/// Appends what each source shows.
fn append_all_named(
    alloc: Global,
    names: &[Name],
    texts: &[SourceText],
    out: &mut Bytes,
) -> Result<(), NoMemory>
    requires each { length names.now ≡ length texts.now }
    requires utf8 { AreUtf8 texts.now }
    ensures ok { OnOk result (out.new ≡ out.old ++ flat_map source_view (named names.now texts.now)) }
    ensures kept { Extends out.old out.new }
{
    for index in 0..names.len() {
        append_named(alloc, &names[index], &texts[index], out)?;
    }
    Ok(())
}

/// Appends a view of one source, behind its title.
fn append_one(
    alloc: Global,
    texts: &[SourceText],
    counts: Counts,
    out: &mut Bytes,
) -> Result<(), NoMemory>
    requires { AreShown texts.now }
    ensures ok { OnOk result (out.new ≡ out.old ++ text_view (first_shown texts.now) counts) }
    ensures kept { Extends out.old out.new }
{
    let shown = shown_first(alloc, texts)?;
    append_text_view(&shown, counts, out)
}

/// Appends the title of an unaware terminal and its view.
#[tactic(auto, unfolding(view_spec::specs::Views::unaware_view))]
fn append_unaware(
    alloc: Global,
    name: &Name,
    texts: &[SourceText],
    counts: Counts,
    out: &mut Bytes,
) -> Result<(), NoMemory>
    requires { AreShown texts.now }
    ensures ok { OnOk result (out.new ≡ out.old ++ unaware_view name.now (first_shown texts.now) counts) }
    ensures kept { Extends out.old out.new }
{
    append_unaware_title(name.as_slice(), out)?;
    append_one(alloc, texts, counts, out)
}

/// Appends the title of an aware terminal and its view.
#[tactic(auto, unfolding(view_spec::specs::Views::aware_view))]
fn append_aware(
    alloc: Global,
    name: &Name,
    names: &[Name],
    texts: &[SourceText],
    counts: Counts,
    out: &mut Bytes,
) -> Result<(), NoMemory>
    requires each { length names.now ≡ length texts.now }
    requires utf8 { AreUtf8 texts.now }
    ensures ok { OnOk result (out.new ≡ out.old ++ aware_view name.now (named names.now texts.now) counts) }
    ensures kept { Extends out.old out.new }
{
    append_aware_title(name.as_slice(), out)?;
    append_all_named(alloc, names, texts, out)?;
    append_counts(counts, out)
}

/// Takes back what was appended behind the first `size` octets, where it is not whole.
fn whole_or_none(
    appended: Result<(), NoMemory>,
    size: usize,
    out: &mut Bytes,
) -> Result<(), NoMemory>
    ensures same { result ≡ appended }
    ensures ok { OnOk result (out.new ≡ out.old) }
    ensures err { OnErr result (out.new ≡ take size out.old) }
{
    if appended.is_err() {
        out.truncate(size);
    }
    appended
}

impl Terminal {
    /// Appends a view of a terminal that is not spent, or a part of it.
    fn append_part(&self, alloc: Global, view: View<'_>, out: &mut Bytes) -> Result<(), NoMemory>
        requires fits { Fits view (length (texts_of self.now)) }
        requires shown { AreShown (texts_of self.now) }
        ensures ok { OnOk result (out.new ≡ out.old ++ view_of view.entry self.now) }
        ensures kept { Extends out.old out.new }
    {
        let texts = self.heard();
        let counts = self.counts();
        match view {
            View::Text => append_one(alloc, texts, counts, out),
            View::Unaware { name } => append_unaware(alloc, name, texts, counts, out),
            View::Aware { name, names } => append_aware(alloc, name, names, texts, counts, out),
        }
    }

    /// Appends a view of a terminal that is not spent.
    fn append_whole(&self, alloc: Global, view: View<'_>, out: &mut Bytes) -> Result<(), NoMemory>
        requires fits { Fits view (length (texts_of self.now)) }
        requires shown { AreShown (texts_of self.now) }
        ensures ok { OnOk result (out.new ≡ out.old ++ view_of view.entry self.now) }
        ensures err { OnErr result (out.new ≡ out.old) }
    {
        let size = out.len();
        let appended = self.append_part(alloc, view, out);
        whole_or_none(appended, size, out)
    }

    /// Appends a view of a finished terminal.
    pub fn append_view(
        &self,
        alloc: Global,
        view: View<'_>,
        out: &mut Bytes,
    ) -> Result<(), NoMemory>
        requires finished { IsFinished self.now }
        requires fits { IsWhole self.now → Fits view (length (texts_of self.now)) }
        ensures seen { OnOk result (AppendsSeen self.now view.entry out.old out.new) }
        ensures whole { OnOk result (IsWhole self.now) }
        ensures err { OnErr result (out.new ≡ out.old) }
    {
        if self.is_spent() {
            return Err(NoMemory);
        }
        self.append_whole(alloc, view, out)
    }
}
