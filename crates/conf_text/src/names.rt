//! Names and paths as conferences write them.
ghost use Rattle.std.specs.Prelude.{◌≡◌};
ghost use Rattle.std.specs.List.{list_all};
ghost use Rattle.std.specs.Char.{is_ascii_alphanumeric};
ghost use Rattle.file_spec.specs.Conference.{is_name, is_name_octet, is_path, aware_of};
ghost use Rattle.file_spec.specs.Services.{is_operator_word};

use file_spec::is_name_octet;
use file_spec::limits::{LONGEST_NAME, LONGEST_PATH, LONGEST_WORD, SHORTEST_WORD};

fn all_letters(text: &[u8]) -> bool
    ensures { result ≡ list_all is_name_octet text.now }
{
    text.iter().all(|octet| is_name_octet(*octet))
}

/// Whether the text names a leg: 1 to 32 letters, digits, dots, underscores and dashes.
pub(crate) fn names_leg(text: &str) -> bool
    ensures { result ≡ is_name text.now }
{
    !text.is_empty() && text.len() <= LONGEST_NAME && all_letters(text.as_bytes())
}

/// Whether the text may be a path: 1 to 255 octets.
pub(crate) fn names_path(text: &str) -> bool
    ensures { result ≡ is_path text.now }
{
    !text.is_empty() && text.len() <= LONGEST_PATH
}

fn all_alphanumeric(text: &[u8]) -> bool
    ensures { result ≡ list_all is_ascii_alphanumeric text.now }
{
    text.iter().all(|octet| octet.is_ascii_alphanumeric())
}

/// Whether the text may be an operator's word: 8 to 64 ASCII letters and digits.
pub(crate) fn is_word(text: &str) -> bool
    ensures { result ≡ is_operator_word text.now }
{
    text.len() >= SHORTEST_WORD && text.len() <= LONGEST_WORD && all_alphanumeric(text.as_bytes())
}

/// Whether the terminal is aware.
pub(crate) fn awareness(mode: &str) -> Option<bool>
    ensures { result ≡ aware_of mode.now }
{
    match mode {
        "aware" => Some(true),
        "unaware" => Some(false),
        _ => None,
    }
}
