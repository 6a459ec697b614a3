//! The lines of legs whose texts may be long.
ghost use Rattle.std.specs.Prelude.{◌≡◌, ◌<◌, ◌&&◌, bytes_eq, length, IfOk};
ghost use Rattle.std.specs.List.{list_any};
ghost use Rattle.file_spec.specs.Conference.{long, long_of};
ghost use Rattle.conf_text.specs.Lines.{above_of, texts_of};

use crate::ConfKind;
use crate::drafts::Draft;
use crate::stay_lines::leg_place;
use file_spec::LegLine;

/// Whether the texts of a leg of this name may be long.
fn is_long(legs: &[LegLine], name: &str) -> bool
    ensures { result ≡ list_any (λ l. bytes_eq l.name name.now && l.long) legs.now }
{
    legs.iter().any(|leg| leg.name.as_str() == name && leg.long)
}

#[tactic(auto, unfolding(file_spec::specs::Conference::long_of))]
fn read_name(above: &Draft, name: &str) -> Result<u8, ConfKind>
    ensures exact { result ≡ long_of (above_of above.now) name.now }
    ensures place { IfOk result (λ leg. leg < length above.now.legs) }
{
    let leg = leg_place(above, name).ok_or(ConfKind::Name)?;
    if is_long(above.legs.as_slice(), name) {
        return Err(ConfKind::Twice);
    }
    Ok(leg)
}

/// The leg of a line whose texts may be long, counted from 0, from the words after the first.
pub(crate) fn read_long(above: &Draft, words: &[&str]) -> Result<u8, ConfKind>
    ensures exact { result ≡ long (above_of above.now) (texts_of words.now) }
    ensures place { IfOk result (λ leg. leg < length above.now.legs) }
{
    match words {
        [name] => read_name(above, name),
        _ => Err(ConfKind::Count),
    }
}
