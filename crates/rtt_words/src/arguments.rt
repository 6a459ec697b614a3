//! From words to what they ask for.
ghost use Rattle.std.specs.Prelude.{◌≡◌, ◌≢◌, [], true, List, ℕ, Option, Some, None, map, string_bytes, IfOk, drop};
ghost use Rattle.std.specs.Option.{option_map};
ghost use Rattle.clap.specs.Words.{app_of, fault_of, first_of, first_value, found_of, is_simple_and_free, matches_of};
ghost use Rattle.rtt_words.specs.Apps.{ArePlain, IsForm, Row};

use crate::WordFault;
use clap::{ArgMatches, Command};
use std::alloc::{AllocError, Global};

/// What the words after a command's name ask for, where they are in its rows.
pub(crate) trait Arguments<'a>: Sized + Drop {
    /// What the word table calls it.
    ghost Meant: { Type 0 };

    /// What is meant, what is asked for where each argument has this text, and what the word table says of the words after the
    /// name.
    ghost table_row: { Row Self Meant };

    /// The command with its arguments.
    fn form(alloc: Global) -> Result<Command<'a>, AllocError>
        ensures { IfOk result (λ c. IsForm (app_of c) table_row.given table_row.said) };

    /// What the arguments ask for, if their numbers are in range.
    fn from_matches(matches: &ArgMatches<'a>) -> Option<Self>
        ensures { option_map table_row.meant result ≡ table_row.given (first_value (found_of matches.now)) };
}

/// The arguments' texts among the words, of which the first is the command's name.
fn matches_for<'a>(command: Command<'a>, words: &'a [String]) -> Result<ArgMatches<'a>, WordFault>
    requires { is_simple_and_free (app_of command) ≡ true }
    ensures taken { IfOk result (λ _. fault_of (app_of command.entry) (map string_bytes words.now) ≡ []) }
    ensures texts { IfOk result (λ m. (id : List ℕ) → first_value (found_of m) id ≡ first_of id (matches_of (app_of command.entry) (map string_bytes words.now))) }
    ensures wrong { result ≡ Err WordFault.Wrong → fault_of (app_of command.entry) (map string_bytes words.now) ≢ [] }
{
    let matches = command.try_get_matches_from(words)?;
    Ok(matches)
}

/// What the words after the first ask for.
pub(crate) fn from_words<'a, R: Arguments<'a>>(
    alloc: Global,
    words: &'a [String],
) -> Result<R, WordFault>
    requires { ArePlain (map string_bytes words.now) }
    ensures meant { IfOk result (λ r. R.table_row.said (drop 1 (map string_bytes words.now)) ≡ Some (R.table_row.meant r)) }
    ensures wrong { result ≡ Err WordFault.Wrong → R.table_row.said (drop 1 (map string_bytes words.now)) ≡ None }
{
    let Ok(form) = R::form(alloc) else {
        return Err(WordFault::NoMemory);
    };
    let matches = matches_for(form, words)?;
    R::from_matches(&matches).ok_or(WordFault::Wrong)
}
