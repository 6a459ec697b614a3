//! What is known of all lines of a script before they are read.
ghost use Rattle.std.specs.Prelude.{◌≡◌, true, ◌↔◌};
ghost use Rattle.std.specs.Str.{is_utf8};
ghost use Rattle.std.specs.Str.Lines.{lines};
ghost use Rattle.script_text.specs.ScriptLines.{AreKnown, IsPlain};

use crate::text_of;
use memchr::memchr;

/// What is known of each line.
#[derive(Clone, Copy)]
pub(crate) struct KnownLines {
    /// It is text.
    pub text: bool,
    /// It has no backslash.
    pub plain: bool,
}

/// Whether these octets are text.
pub(crate) fn is_text(octets: &[u8]) -> bool
    ensures { result ≡ is_utf8 octets.now }
{
    text_of(octets).is_some()
}

/// Whether no backslash stands in these octets.
fn is_plain(octets: &[u8]) -> bool
    ensures { (result ≡ true) ↔ IsPlain octets.now }
{
    memchr(b'\\', octets).is_none()
}

/// The same, where `plain` says that it is known.
pub(crate) fn is_plain_text(octets: &[u8], plain: bool) -> bool
    requires { plain ≡ true → IsPlain octets.now }
    ensures { (result ≡ true) ↔ IsPlain octets.now }
{
    plain || is_plain(octets)
}

/// What is known of each line of a file.
pub(crate) fn known_of(bytes: &[u8]) -> KnownLines
    ensures { AreKnown result (lines bytes.now) }
{
    KnownLines {
        text: is_text(bytes),
        plain: is_plain(bytes),
    }
}
