//! The classes of characters.
ghost use Rattle.std.specs.Prelude.{◌≡◌};
ghost use Rattle.view_spec.specs.Characters.{class_of};

use view_spec::CharClass;

/// What the character does on a display. CR and LF are each a new line here, also where they stand together.
#[tactic(auto, using(view_spec::proofs::Steps::plain_class), unfolding(view_spec::specs::Characters::class_of))]
pub fn class(c: char) -> CharClass
    ensures { result ≡ class_of c }
{
    if ' ' <= c && c <= '~' {
        return CharClass::Print;
    }
    match c {
        '\u{8}' => CharClass::Erase,
        '\u{7}' => CharClass::Bell,
        '\n' | '\r' | '\u{2028}' | '\u{2029}' => CharClass::NewLine,
        '\0'..='\u{1f}' | '\u{7f}'..='\u{9f}' | '\u{feff}' => CharClass::Silent,
        '\u{fffd}' => CharClass::Marker,
        _ => CharClass::Print,
    }
}
