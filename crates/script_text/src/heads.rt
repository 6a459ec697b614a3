//! When a line of a script is typed.
ghost use Rattle.std.specs.Prelude.{◌≡◌, ◌≤◌, ◌==◌, None, Err, IfOk};
ghost use Rattle.std.specs.List.{position};
ghost use Rattle.std.specs.Str.{is_utf8};
ghost use Rattle.script_text.specs.Fronts.{number_and_rest};
ghost use Rattle.script_text.specs.ScriptLines.{head_octets, head_said, moment_said, IsKnown};

use crate::line_facts::{KnownLines, is_text};
use crate::{ConfKind, number_before_space};
use file_spec::limits::LAST_MOMENT;

/// When a line is typed, in milliseconds, and the octets that its text is read from.
#[derive(Clone, Copy)]
pub(crate) struct Head<'a> {
    pub at: u32,
    pub octets: &'a [u8],
}

fn space_in(octets: &[u8]) -> Option<usize>
    ensures { result ≡ position (λ c. c == 32) octets.now }
{
    octets.iter().position(|octet| *octet == b' ')
}

/// Why a line says no moment: it has no space, or what stands before the first one is no number.
#[inline(never)]
fn no_moment(octets: &[u8]) -> ConfKind
    ensures { number_and_rest LAST_MOMENT octets.now ≡ None → moment_said octets.now ≡ Err result }
{
    match space_in(octets) {
        Some(_) => ConfKind::Number,
        None => ConfKind::Count,
    }
}

fn read_moment(octets: &[u8]) -> Result<Head<'_>, ConfKind>
    ensures { head_octets result ≡ moment_said octets.now }
{
    match number_before_space(octets, LAST_MOMENT) {
        Some((at, octets)) => Ok(Head { at, octets }),
        None => Err(no_moment(octets)),
    }
}

fn is_text_line(octets: &[u8], known: KnownLines) -> bool
    requires { IsKnown known octets.now }
    ensures { result ≡ is_utf8 octets.now }
{
    known.text || is_text(octets)
}

/// Reads the head of a line. The latest line above is typed at `latest`.
pub(crate) fn read_head(latest: u32, octets: &[u8], known: KnownLines) -> Result<Head<'_>, ConfKind>
    requires { IsKnown known octets.now }
    ensures said { head_octets result ≡ head_said latest octets.now }
    ensures in_order { IfOk result (λ head. latest ≤ head.at) }
{
    if !is_text_line(octets, known) {
        return Err(ConfKind::NotText);
    }
    let head = match read_moment(octets) {
        Ok(head) => head,
        Err(kind) => return Err(kind),
    };
    if head.at < latest {
        return Err(ConfKind::Order);
    }
    Ok(head)
}
