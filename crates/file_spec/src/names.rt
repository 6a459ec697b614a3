//! The names of legs.
ghost use Rattle.std.specs.Prelude.{◌≡◌, IsTrue, bytes_eq};
ghost use Rattle.std.specs.List.{list_any};
ghost use Rattle.file_spec.specs.Conference.{is_name, is_name_octet};

use crate::LegLine;
use rtt_base::Name;

/// Whether the octet may stand in a name: a letter, a digit, a dot, an underscore or a dash.
pub fn is_name_octet(octet: u8) -> bool
    ensures { result ≡ is_name_octet octet }
{
    octet.is_ascii_alphanumeric() || octet == b'.' || octet == b'_' || octet == b'-'
}

/// Whether one of the legs has this name.
pub fn has_name(legs: &[LegLine], name: &str) -> bool
    ensures { result ≡ list_any (λ leg. bytes_eq leg.name name.now) legs.now }
{
    legs.iter().any(|leg| leg.name.as_str() == name)
}

/// The name that the text is.
pub fn name_of(text: &str) -> Name
    requires { IsTrue (is_name text.now) }
    ensures { result ≡ text.now }
{
    let mut name = Name::new();
    for octet in text.as_bytes() {
        name.push(char::from(*octet));
    }
    name
}
