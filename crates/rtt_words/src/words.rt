//! Reads command words.
ghost use Rattle.std.specs.Prelude.{◌≡◌, ◌∷◌, Some, None, map, string_bytes, IfOk, drop};
ghost use Rattle.std.specs.List.{list_all};
ghost use Rattle.rtt_words.specs.Words.{command, is_word, cascade_words, check_words};
ghost use Rattle.rtt_words.specs.Apps.{ArePlain};
ghost use Rattle.rtt_words.specs.Commands.{cascaded, checked, meaning};

use crate::arguments::from_words;
use crate::forms::NoWords;
use crate::{CascadeWords, ChannelWords, CheckWords, Command, MixWords};
use clap::error::ErrorKind;
use std::alloc::Global;
use thiserror::Error;

/// Why words ask for nothing.
#[derive(Clone, Copy, Debug, PartialEq, Eq, Error)]
pub enum WordFault {
    /// They are outside the word table.
    #[error("wrong words")]
    Wrong,
    /// Memory ran out before the words were read.
    #[error("out of memory")]
    NoMemory,
}

impl From<clap::Error> for WordFault {
    ghost use Rattle.std.specs.Prelude.{◌≡◌};
    ghost use Rattle.clap.specs.Words.{kind_of};
    ghost use Rattle.rtt_words.specs.Apps.{fault_by};

    ghost from_gives = { λ error fault. fault ≡ fault_by (kind_of error) };

    fn from(error: clap::Error) -> WordFault {
        match error.kind() {
            ErrorKind::OutOfMemory => WordFault::NoMemory,
            _ => WordFault::Wrong,
        }
    }
}

/// Whether the word is neither empty nor begins with `-`.
fn is_plain(word: &String) -> bool
    ensures { result ≡ is_word (string_bytes word.now) }
{
    match word.as_str().as_bytes() {
        [] => false,
        [first, ..] => *first != b'-',
    }
}

fn all_plain(words: &[String]) -> bool
    ensures { result ≡ list_all (λ w. is_word (string_bytes w)) words.now }
{
    words.iter().all(|word| is_plain(word))
}

/// A `cascade`, where the words after its name are in its row.
fn cascade_command(alloc: Global, words: &[String]) -> Result<CascadeWords<'_>, WordFault>
    requires { ArePlain (map string_bytes words.now) }
    ensures asked { IfOk result (λ c. cascade_words (drop 1 (map string_bytes words.now)) ≡ Some (cascaded c)) }
    ensures wrong { result ≡ Err WordFault.Wrong → cascade_words (drop 1 (map string_bytes words.now)) ≡ None }
{
    let ChannelWords { file, ssrc, out } = from_words(alloc, words)?;
    let conference = out;
    Ok(CascadeWords {
        file,
        ssrc,
        conference,
    })
}

/// A `check`, where the words after its name are in its row.
fn check_command(alloc: Global, words: &[String]) -> Result<CheckWords<'_>, WordFault>
    requires { ArePlain (map string_bytes words.now) }
    ensures asked { IfOk result (λ c. check_words (drop 1 (map string_bytes words.now)) ≡ Some (checked c)) }
    ensures wrong { result ≡ Err WordFault.Wrong → check_words (drop 1 (map string_bytes words.now)) ≡ None }
{
    let MixWords { conference } = from_words(alloc, words)?;
    Ok(CheckWords { file: conference })
}

/// The command of this name, where the words after the first are in its rows.
fn named<'a>(alloc: Global, name: &str, words: &'a [String]) -> Result<Command<'a>, WordFault>
    requires { ArePlain (map string_bytes words.now) }
    ensures asked { IfOk result (λ c. command (name.now ∷ drop 1 (map string_bytes words.now)) ≡ Some (meaning c)) }
    ensures wrong { result ≡ Err WordFault.Wrong → command (name.now ∷ drop 1 (map string_bytes words.now)) ≡ None }
{
    match name {
        "read" => Ok(Command::Read(from_words(alloc, words)?)),
        "list" => Ok(Command::ListRecords(from_words(alloc, words)?)),
        "send" => Ok(Command::Send(from_words(alloc, words)?)),
        "mix" => Ok(Command::Mix(from_words(alloc, words)?)),
        "attend" => Ok(Command::Attend(from_words(alloc, words)?)),
        "cascade" => Ok(Command::Cascade(cascade_command(alloc, words)?)),
        "make" => Ok(Command::Make(from_words(alloc, words)?)),
        "live" => Ok(Command::Live(from_words(alloc, words)?)),
        "watch" => Ok(Command::Watch(from_words(alloc, words)?)),
        "relay" => Ok(Command::Relay(from_words(alloc, words)?)),
        "channel" => Ok(Command::Channel(from_words(alloc, words)?)),
        "show" => Ok(Command::Show(from_words(alloc, words)?)),
        "times" => Ok(Command::Times(from_words(alloc, words)?)),
        "script" => Ok(Command::Script(from_words(alloc, words)?)),
        "check" => Ok(Command::Check(check_command(alloc, words)?)),
        "help" | "--help" | "-h" => Ok(Command::Help(from_words(alloc, words)?)),
        "version" | "--version" => {
            let NoWords = from_words(alloc, words)?;
            Ok(Command::Version)
        }
        _ => Err(WordFault::Wrong),
    }
}

/// What these words, which are those after the program's name, ask for.
pub fn command_of(alloc: Global, words: &[String]) -> Result<Command<'_>, WordFault>
    ensures asked { IfOk result (λ c. command (map string_bytes words.now) ≡ Some (meaning c)) }
    ensures wrong { result ≡ Err WordFault.Wrong → command (map string_bytes words.now) ≡ None }
{
    let [name, more @ ..] = words else {
        return Err(WordFault::Wrong);
    };
    if !all_plain(more) {
        return Err(WordFault::Wrong);
    }
    named(alloc, name.as_str(), words)
}
