//! How a text is shown.
ghost use Rattle.std.specs.Prelude.{◌≡◌, IsUtf8, IfOk, chars};
ghost use Rattle.view_spec.specs.Shown.{shown};
ghost use Rattle.t140_text.specs.Screens.{ScreenHolds};

use crate::Lines;
use crate::plain::plain_len;
use crate::screens::Screen;
use rtt_base::NoMemory;
use std::alloc::Global;

/// What a text shows.
#[derive(Debug, Drop)]
pub struct Shown {
    /// The lines, of which there is always one.
    pub lines: Lines,
    /// How often it rings.
    pub bells: u64,
}

/// What a text in UTF-8 shows (T.140), in time linear in the text.
pub fn show(alloc: Global, text: &[u8]) -> Result<Shown, NoMemory>
    requires { IsUtf8 text.now }
    ensures lines { IfOk result (λ display. display.lines ≡ (shown text.now).lines) }
    ensures bells { IfOk result (λ display. display.bells ≡ (shown text.now).bells) }
{
    let Ok(text) = str::from_utf8(text) else {
        unreachable!()
    };
    let screen = read(alloc, text)?;
    Ok(Shown {
        lines: Lines::of(screen.text),
        bells: screen.bells,
    })
}

// The screen after all characters of the text.
fn read(alloc: Global, text: &str) -> Result<Screen, NoMemory>
    ensures { IfOk result (λ screen. ScreenHolds screen (chars text.now)) }
{
    let mut screen = Screen::new(alloc);
    let mut rest = text;
    while !rest.is_empty() {
        let (plain, after) = rest.split_at(plain_len(rest.as_bytes()));
        screen.print(plain)?;
        rest = screen.read_first(after)?;
    }
    Ok(screen)
}
