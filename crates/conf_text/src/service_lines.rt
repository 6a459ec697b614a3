//! The lines of what is asked beside the mixing.
ghost use Rattle.std.specs.Prelude.{◌≡◌};
ghost use Rattle.file_spec.specs.Conference.{counts, operator, operator_of, prefix, service_word};
ghost use Rattle.conf_text.specs.Lines.{above_of, texts_of};

use crate::ConfKind;
use crate::drafts::Draft;
use crate::entries::read_setting;
use crate::leg_lines::{hears_at, port_of};
use crate::names::{is_word, names_path};
use file_spec::limits::{LEAST_GONE, MOST_GONE};
use file_spec::{OperatorLine, OperatorWord, RecordPrefix, ServiceLine};

#[tactic(auto, unfolding(file_spec::specs::Conference::operator_of))]
fn read_operator_at(above: &Draft, port: &str, word: &str) -> Result<OperatorLine, ConfKind>
    ensures { result ≡ operator_of (above_of above.now) port.now word.now }
{
    if !is_word(word) {
        return Err(ConfKind::Name);
    }
    let port = port_of(port).ok_or(ConfKind::Number)?;
    if above.service.operator.is_some() {
        return Err(ConfKind::Twice);
    }
    if hears_at(above.legs.as_slice(), port) {
        return Err(ConfKind::Clash);
    }
    Ok(OperatorLine {
        port: port as u16,
        word: OperatorWord::from_text(word),
    })
}

fn read_operator(above: &Draft, words: &[&str]) -> Result<OperatorLine, ConfKind>
    ensures { result ≡ operator (above_of above.now) (texts_of words.now) }
{
    match words {
        [port, word] => read_operator_at(above, port, word),
        _ => Err(ConfKind::Count),
    }
}

fn read_prefix(above: &Draft, words: &[&str]) -> Result<RecordPrefix, ConfKind>
    ensures { result ≡ prefix (above_of above.now) (texts_of words.now) }
{
    match words {
        [text] if !names_path(text) => Err(ConfKind::Name),
        [_] if above.service.recorded.is_some() => Err(ConfKind::Twice),
        [text] => Ok(RecordPrefix::from_text(text)),
        _ => Err(ConfKind::Count),
    }
}

/// The counts of each leg are asked for; behind the word of the line stands nothing.
pub(crate) fn read_counts(above: &Draft, words: &[&str]) -> Result<ServiceLine, ConfKind>
    ensures { result ≡ counts (above_of above.now) (texts_of words.now) }
{
    match words {
        [] if above.service.counts => Err(ConfKind::Twice),
        [] => Ok(ServiceLine::Counts),
        _ => Err(ConfKind::Count),
    }
}

/// What is asked on a line of a call over links, from its first word and those after it.
pub(crate) fn read_service(
    above: &Draft,
    word: &str,
    words: &[&str],
) -> Result<ServiceLine, ConfKind>
    ensures { result ≡ service_word (above_of above.now) word.now (texts_of words.now) }
{
    match word {
        "gone" => {
            let silence = read_setting(LEAST_GONE, MOST_GONE, above.service.gone, words)?;
            Ok(ServiceLine::Gone(silence))
        }
        "operator" => Ok(ServiceLine::Operator(read_operator(above, words)?)),
        "record" => Ok(ServiceLine::Record(read_prefix(above, words)?)),
        _ => Err(ConfKind::Word),
    }
}
