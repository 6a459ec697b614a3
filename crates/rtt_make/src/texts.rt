//! Words that are typed, and what is typed behind them.
ghost use Rattle.std.specs.Prelude.{◌≡◌, OnOk};
ghost use Rattle.command_spec.specs.Draws.{times};
ghost use Rattle.command_spec.specs.Generated.{behind_word, letter, text};

use crate::draws::Draws;
use rtt_base::{Bytes, NoMemory};

/// How many letters there are, `a` to `z`.
const LETTERS: u32 = 26;
/// The most letters of a word.
const LONGEST_WORD: u32 = 12;
/// Of so many words three have something behind them.
const ENDINGS: u32 = 8;

/// What is typed behind a word: a stop and a space, U+2028, U+0008, or nothing.
fn behind(ending: u32) -> &'static [u8]
    ensures { result.now ≡ behind_word ending }
{
    match ending {
        0 => b". ",
        1 => "\u{2028}".as_bytes(),
        2 => b"\x08",
        _ => b"",
    }
}

fn draw_letter(draws: &mut Draws) -> u8
    ensures { letter draws.old ≡ (result, draws.new) }
{
    b'a' + draws.draw(LETTERS) as u8
}

/// Draws a word of so many letters, written over `word`.
fn draw_word(draws: &mut Draws, letters: u32, word: &mut Bytes) -> Result<(), NoMemory>
    ensures { OnOk result (times letters letter draws.old ≡ (word.new, draws.new)) }
{
    word.clear();
    for _ in 0..letters {
        let letter = draw_letter(draws);
        word.push(letter)?;
    }
    Ok(())
}

/// Draws a word and what is typed behind it, written over `typed`.
#[tactic(auto, unfolding(command_spec::specs::Generated::text))]
pub(crate) fn draw_text(draws: &mut Draws, typed: &mut Bytes) -> Result<(), NoMemory>
    ensures { OnOk result (text draws.old ≡ (typed.new, draws.new)) }
{
    let letters = 1 + draws.draw(LONGEST_WORD);
    draw_word(draws, letters, typed)?;
    let ending = draws.draw(ENDINGS);
    typed.append(behind(ending))
}
