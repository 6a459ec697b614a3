//! Lines and their words.
ghost use Rattle.std.specs.Prelude.{◌≡◌, ◌==◌, not, map, option_map, IfOk};
ghost use Rattle.std.specs.Char.{is_ascii_digit};
ghost use Rattle.std.specs.List.{list_all, list_any};
ghost use Rattle.std.specs.Str.Lines.{lines};
ghost use Rattle.file_spec.specs.Conference.{is_blank};
ghost use Rattle.file_spec.specs.Lines.{words};
ghost use Rattle.file_spec.specs.Numbers.{is_number};
ghost use Rattle.report_spec.specs.Checking.{line_at, word_in};
ghost use Rattle.report_spec.specs.Forms.{begins_with_moment, first_said, is_conference_word, is_of_conference, is_linked, is_of_link, is_of_moment, is_of_recording, has_leg_words, leg_is_linked, leg_is_recorded, line_word, packet_word, said, service_word, time_word, word_of};
ghost use Rattle.rtt_check.specs.Lines.{tells};

use report_spec::LineWord;
use rtt_base::NoMemory;
use script_text::{next_line, says_nothing, text_of};
use std::alloc::Global;

fn all_spaces(line: &[u8]) -> bool
    ensures { result ≡ list_all (λ c. c == 32) line.now }
{
    line.iter().all(|octet| *octet == b' ')
}

fn says_something(line: &[u8]) -> bool
    ensures { result ≡ not (is_blank line.now) }
{
    !(all_spaces(line) || says_nothing(line))
}

/// The words of a text: what stands between its spaces.
fn text_words(alloc: Global, text: &str) -> Result<Vec<&str>, NoMemory>
    ensures { IfOk result (λ v. map (λ w. w.now) v.items ≡ words text.now) }
{
    match text
        .split(' ')
        .filter(|word| !word.is_empty())
        .collect(alloc)
    {
        Ok(words) => Ok(words),
        Err(_) => Err(NoMemory),
    }
}

/// The words of a line, where it is text.
fn words_of(alloc: Global, line: &[u8]) -> Result<Vec<&str>, NoMemory>
    ensures { IfOk result (λ v. map (λ w. w.now) v.items ≡ said line.now) }
{
    match text_of(line) {
        Some(text) => text_words(alloc, text),
        None => Ok(Vec::new(alloc)),
    }
}

/// A digit, a sign or a point.
fn is_of_moment(octet: u8) -> bool
    ensures { result ≡ is_of_moment octet }
{
    octet.is_ascii_digit() || octet == b'-' || octet == b'+' || octet == b'.'
}

/// Whether a line begins with a moment, or what is meant as one, behind spaces.
pub(crate) fn begins_with_moment(line: &[u8]) -> bool
    ensures { result ≡ begins_with_moment line.now }
{
    let mut rest = line;
    while let [octet, behind @ ..] = rest {
        if *octet != b' ' {
            return is_of_moment(*octet);
        }
        rest = behind;
    }
    false
}

fn is_conference_word(word: &str) -> bool
    ensures { result ≡ is_conference_word word.now }
{
    word == "leg" || word == "mixer"
}

fn is_of_conference(words: &[&str]) -> bool
    ensures { result ≡ is_of_conference (map (λ w. w.now) words.now) }
{
    match words {
        [] => false,
        [word, ..] => is_conference_word(word),
    }
}

fn all_digits(octets: &[u8]) -> bool
    ensures { result ≡ list_all is_ascii_digit octets.now }
{
    octets.iter().all(|octet| octet.is_ascii_digit())
}

fn is_port(word: &str) -> bool
    ensures { result ≡ is_number word.now }
{
    let octets = word.as_bytes();
    !octets.is_empty() && octets.len() <= 10 && all_digits(octets)
}

fn has_colon(word: &str) -> bool
    ensures { result ≡ list_any (λ c. c == 58) word.now }
{
    word.as_bytes().iter().any(|octet| *octet == b':')
}

/// Whether the IN of a leg is a number, as a port is, or its OUT has a colon, as an address with a port has.
fn is_linked(input: &str, output: &str) -> bool
    ensures { result ≡ is_linked input.now output.now }
{
    is_port(input) || has_colon(output)
}

/// Whether these are as many words as a leg has.
fn has_leg_words(words: &[&str]) -> bool
    ensures { result ≡ has_leg_words (map (λ w. w.now) words.now) }
{
    words.len() == 6 || words.len() == 8
}

fn leg_is_linked(words: &[&str]) -> bool
    ensures { result ≡ leg_is_linked (map (λ w. w.now) words.now) }
{
    match words {
        [word, _, _, _, input, output, ..] => *word == "leg" && is_linked(input, output),
        _ => false,
    }
}

fn leg_is_recorded(words: &[&str]) -> bool
    ensures { result ≡ leg_is_recorded (map (λ w. w.now) words.now) }
{
    match words {
        [word, _, _, _, input, output, ..] => *word == "leg" && !is_linked(input, output),
        _ => false,
    }
}

fn is_of_link(words: &[&str]) -> bool
    ensures { result ≡ is_of_link (map (λ w. w.now) words.now) }
{
    has_leg_words(words) && leg_is_linked(words)
}

fn is_of_recording(words: &[&str]) -> bool
    ensures { result ≡ is_of_recording (map (λ w. w.now) words.now) }
{
    has_leg_words(words) && leg_is_recorded(words)
}

fn packet_word(word: &str) -> LineWord
    ensures { result ≡ packet_word word.now }
{
    match word {
        "lose" => LineWord::Lose,
        "delay" => LineWord::Delay,
        "twice" => LineWord::Twice,
        _ => LineWord::Other,
    }
}

fn service_word(word: &str) -> LineWord
    ensures { result ≡ service_word word.now }
{
    match word {
        "gone" => LineWord::Gone,
        "operator" => LineWord::Operator,
        "record" => LineWord::Record,
        "follow" => LineWord::Follow,
        other => packet_word(other),
    }
}

fn time_word(word: &str) -> LineWord
    ensures { result ≡ time_word word.now }
{
    match word {
        "tick" => LineWord::Tick,
        "spacing" => LineWord::Spacing,
        "wait" => LineWord::Wait,
        "turns" => LineWord::Turns,
        "relabel" => LineWord::Relabel,
        "mtu" => LineWord::Mtu,
        "counts" => LineWord::Counts,
        "long" => LineWord::Long,
        other => service_word(other),
    }
}

fn line_word(word: &str) -> LineWord
    ensures { result ≡ line_word word.now }
{
    match word {
        "leg" => LineWord::Leg,
        "mixer" => LineWord::Mixer,
        "gens" => LineWord::Generations,
        "stay" => LineWord::Stay,
        other => time_word(other),
    }
}

fn word_of(words: &[&str]) -> LineWord
    ensures { result ≡ word_of (map (λ w. w.now) words.now) }
{
    match words {
        [] => LineWord::Other,
        [word, ..] => line_word(word),
    }
}

/// What a line tells, where there is one.
pub(crate) fn word_in(alloc: Global, line: Option<&[u8]>) -> Result<LineWord, NoMemory>
    ensures { IfOk result (λ word. word ≡ word_in (option_map (λ l. l.now) line.entry)) }
{
    match line {
        Some(line) => {
            let words = words_of(alloc, line)?;
            Ok(word_of(words.as_slice()))
        }
        None => Ok(LineWord::Other),
    }
}

/// The first line that says something.
pub(crate) fn first_said(octets: &[u8]) -> Option<&[u8]>
    ensures { option_map (λ l. l.now) result ≡ first_said (lines octets.now) }
{
    let mut rest = octets;
    while let Some((line, after)) = next_line(rest) {
        if says_something(line) {
            return Some(line);
        }
        rest = after;
    }
    None
}

/// What a line of a conference tells.
#[derive(Clone, Copy)]
pub(crate) enum LineContent {
    /// A leg or the mixer.
    LegOrMixer,
    /// A leg over a link.
    Link,
    /// A leg over recordings.
    Recording,
}

/// Whether a line with these words tells that.
fn tells(words: &[&str], content: LineContent) -> bool
    ensures { result ≡ tells content (map (λ w. w.now) words.now) }
{
    match content {
        LineContent::LegOrMixer => is_of_conference(words),
        LineContent::Link => is_of_link(words),
        LineContent::Recording => is_of_recording(words),
    }
}

/// Whether a line tells that.
pub(crate) fn has_line(alloc: Global, octets: &[u8], content: LineContent) -> Result<bool, NoMemory>
    ensures { IfOk result (λ has. has ≡ list_any (λ l. tells content (said l)) (lines octets.now)) }
{
    let mut rest = octets;
    while let Some((line, after)) = next_line(rest) {
        let words = words_of(alloc, line)?;
        if tells(words.as_slice(), content) {
            return Ok(true);
        }
        rest = after;
    }
    Ok(false)
}

/// The line of this number, of which the first is 1.
pub(crate) fn line_at(octets: &[u8], number: u32) -> Option<&[u8]>
    ensures { option_map (λ l. l.now) result ≡ line_at number (lines octets.now) }
{
    let mut rest = octets;
    let mut left = number;
    while let Some((line, after)) = next_line(rest) {
        match left {
            0 => return None,
            1 => return Some(line),
            _ => {}
        }
        left -= 1;
        rest = after;
    }
    None
}
