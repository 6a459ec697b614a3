//! What a text shows so far, character by character.
ghost use Rattle.std.specs.Prelude.{◌≡◌, ℕ, ◌+◌, ◌-◌, ◌<◌, ◌≤◌, ◌^◌, List, [], ◌∷◌, ◌++◌, length, All, OnOk, IfOk, encode_utf8_all, string_bytes};
ghost use Rattle.view_spec.specs.Shown.{one_back};
ghost use Rattle.t140_text.specs.Screens.{ScreenHolds, IsPlain, Reads};

use crate::class;
use rtt_base::NoMemory;
use std::alloc::Global;
use view_spec::CharClass;

/// What still stands of the text, the bells, and whether CR came last.
#[derive(Drop)]
pub(crate) struct Screen {
    // each new line is LF
    pub(crate) text: String,
    pub(crate) bells: u64,
    pub(crate) after_cr: bool,
}

/// Takes the last character away, if there is one and it is no marker.
fn erase(text: &mut String) -> Result<(), NoMemory>
    ensures { (cs : List ℕ) → string_bytes text.old ≡ encode_utf8_all cs
        → OnOk result (string_bytes text.new ≡ encode_utf8_all (one_back cs)) }
{
    let Some(last) = text.pop() else {
        return Ok(());
    };
    if last == '\u{fffd}' {
        text.push(last)?;
    }
    Ok(())
}

impl Screen {
    pub(crate) fn new(alloc: Global) -> Screen
        ensures { ScreenHolds result [] }
    {
        Screen {
            text: String::new(alloc),
            bells: 0,
            after_cr: false,
        }
    }

    /// Takes the next character.
    pub(crate) fn read(&mut self, c: char) -> Result<(), NoMemory>
        requires { self.old.bells + 1 < 2 ^ 64 }
        ensures { (cs : List ℕ) → ScreenHolds self.old cs → OnOk result (ScreenHolds self.new (cs ++ c ∷ [])) }
    {
        match class(c) {
            CharClass::Erase => erase(&mut self.text)?,
            CharClass::Bell => self.bells += 1,
            CharClass::NewLine if c == '\n' && self.after_cr => {}
            CharClass::NewLine => self.text.push('\n')?,
            CharClass::Silent => {}
            CharClass::Marker | CharClass::Print => self.text.push(c)?,
        }
        self.after_cr = c == '\r';
        Ok(())
    }

    /// Takes a run of plain characters.
    pub(crate) fn print(&mut self, plain: &str) -> Result<(), NoMemory>
        requires { All IsPlain plain.now }
        ensures { (rest whole : List ℕ) → Reads self.old (plain.now ++ rest) whole → OnOk result (Reads self.new rest whole) }
    {
        if !plain.is_empty() {
            self.text.push_str(plain)?;
            self.after_cr = false;
        }
        Ok(())
    }

    /// Takes the first character of a text, if there is one, and answers with the others.
    pub(crate) fn read_first<'a>(&mut self, text: &'a str) -> Result<&'a str, NoMemory>
        requires { self.old.bells + 1 < 2 ^ 64 }
        ensures reads { (whole : List ℕ) → Reads self.old text.now whole → IfOk result (λ rest. Reads self.new rest.now whole) }
        ensures shorter { IfOk result (λ rest. length rest.now ≤ length text.now - 1) }
    {
        let mut chars = text.chars();
        let Some(c) = chars.next() else {
            return Ok(text);
        };
        self.read(c)?;
        Ok(chars.as_str())
    }
}
