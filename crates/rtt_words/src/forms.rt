//! The arguments of each command, and what they ask for.
ghost use Rattle.std.specs.Prelude.{◌≡◌, false, codes, map, IfOk};
ghost use Rattle.clap.specs.Words.{app_of, first_value, found_of, rule_of};
ghost use Rattle.rtt_words.specs.Words as table;
ghost use Rattle.rtt_words.specs.Words.{payload_type_pair};
ghost use Rattle.rtt_words.specs.Commands.{asked, channelled, listed, made, mixed, sent};
ghost use Rattle.rtt_words.specs.Apps.{app_with, bare_app, channel_given, help_given, list_given, make_given, mix_given, payload_types_given, read_given, rule_for, send_given, version_given, with_rules};

use crate::arguments::Arguments;
use crate::topics::topic_of;
use crate::{ChannelWords, ListWords, MakeWords, MixWords, ReadWords, SendWords, Topic};
use clap::{Arg, ArgMatches, Command};
use file_spec::limits::{USUAL_RED, USUAL_T140};
use rtt_base::PayloadTypes;
use script_text::{number_from, number_of, payload_types_of};
use std::alloc::{AllocError, Global};

/// A command without arguments, not even `--help`.
fn bare<'a>(alloc: Global, name: &'a str) -> Command<'a>
    ensures { app_of result ≡ bare_app name.now }
{
    Command::new(alloc, name).disable_help_flag(true)
}

/// An argument that every row has, or one that some rows have.
fn argument<'a>(alloc: Global, id: &'a str, required: bool) -> Arg<'a>
    ensures rule { rule_of result ≡ rule_for required id.now }
    ensures local { result.global ≡ false }
{
    Arg::new(alloc, id).required(required)
}

/// The command with these arguments behind those that it has.
fn with_arguments<'a>(
    alloc: Global,
    command: Command<'a>,
    ids: &[&'a str],
    required: bool,
) -> Result<Command<'a>, AllocError>
    ensures { IfOk result (λ c. app_of c ≡ with_rules required (app_of command.entry) (map (λ id. id.now) ids.now)) }
{
    match ids {
        [] => Ok(command),
        [id, rest @ ..] => {
            let command = command.arg(argument(alloc, id, required))?;
            with_arguments(alloc, command, rest, required)
        }
    }
}

/// A command of this name, with arguments that every row has, and behind them those that some rows have.
fn command_with<'a>(
    alloc: Global,
    name: &'a str,
    all: &[&'a str],
    some: &[&'a str],
) -> Result<Command<'a>, AllocError>
    ensures { IfOk result (λ c. app_of c ≡ app_with name.now (map (λ id. id.now) all.now) (map (λ id. id.now) some.now)) }
{
    let command = with_arguments(alloc, bare(alloc, name), all, true)?;
    with_arguments(alloc, command, some, false)
}

/// The payload types where none are named.
const USUAL: PayloadTypes = PayloadTypes {
    t140: USUAL_T140,
    red: USUAL_RED,
};

/// Two payload types that differ.
fn payload_type_pair_of(t140: &str, red: &str) -> Option<PayloadTypes>
    ensures { result ≡ payload_type_pair t140.now red.now }
{
    let payload_types = payload_types_of(t140, red)?;
    if payload_types.t140 == payload_types.red {
        None
    } else {
        Some(payload_types)
    }
}

/// The payload types that a command names, both or neither.
fn payload_types_matched(matches: &ArgMatches<'_>) -> Option<PayloadTypes>
    ensures { result ≡ payload_types_given (first_value (found_of matches.now) (codes "T140")) (first_value (found_of matches.now) (codes "RED")) }
{
    match (matches.get_str("T140"), matches.get_str("RED")) {
        (None, None) => Some(USUAL),
        (Some(t140), Some(red)) => payload_type_pair_of(t140, red),
        _ => None,
    }
}

impl<'a> Arguments<'a> for ReadWords<'a> {
    ghost Meant = { table.ReadWords };

    ghost table_row = { record { meant = asked; given = read_given; said = table.read_words } };

    /// `read FILE SSRC`, and then SOURCE, T140 and RED. `script` has the same.
    fn form(alloc: Global) -> Result<Command<'a>, AllocError> {
        command_with(alloc, "read", &["FILE", "SSRC"], &["SOURCE", "T140", "RED"])
    }

    fn from_matches(matches: &ArgMatches<'a>) -> Option<ReadWords<'a>> {
        let file = matches.get_str("FILE")?;
        let ssrc = matches.get_str("SSRC")?;
        let source = matches.get_str("SOURCE").unwrap_or(ssrc);
        let ssrc = number_of(ssrc, u32::MAX)?;
        let source = number_of(source, u32::MAX)?;
        let payload_types = payload_types_matched(matches)?;
        Some(ReadWords {
            file,
            ssrc,
            source,
            payload_types,
        })
    }
}

impl<'a> Arguments<'a> for ListWords<'a> {
    ghost Meant = { table.ListWords };

    ghost table_row = { record { meant = listed; given = list_given; said = table.list_words } };

    /// `list FILE`, and then T140 and RED. `show` and `times` have the same.
    fn form(alloc: Global) -> Result<Command<'a>, AllocError> {
        command_with(alloc, "list", &["FILE"], &["T140", "RED"])
    }

    fn from_matches(matches: &ArgMatches<'a>) -> Option<ListWords<'a>> {
        let file = matches.get_str("FILE")?;
        let payload_types = payload_types_matched(matches)?;
        Some(ListWords {
            file,
            payload_types,
        })
    }
}

impl<'a> Arguments<'a> for SendWords<'a> {
    ghost Meant = { table.SendWords };

    ghost table_row = { record { meant = sent; given = send_given; said = table.send_words } };

    /// `send SCRIPT OUT SSRC SEQ STAMP`. `relay` has as many.
    fn form(alloc: Global) -> Result<Command<'a>, AllocError> {
        command_with(
            alloc,
            "send",
            &["SCRIPT", "OUT", "SSRC", "SEQ", "STAMP"],
            &[],
        )
    }

    fn from_matches(matches: &ArgMatches<'a>) -> Option<SendWords<'a>> {
        let file = matches.get_str("SCRIPT")?;
        let out = matches.get_str("OUT")?;
        let ssrc = number_of(matches.get_str("SSRC")?, u32::MAX)?;
        let seq = number_of(matches.get_str("SEQ")?, 65_535)?;
        let timestamp = number_of(matches.get_str("STAMP")?, u32::MAX)?;
        Some(SendWords {
            file,
            out,
            ssrc,
            seq: seq as u16,
            timestamp,
        })
    }
}

impl<'a> Arguments<'a> for MixWords<'a> {
    ghost Meant = { table.MixWords };

    ghost table_row = { record { meant = mixed; given = mix_given; said = table.mix_words } };

    /// `mix CONF`. `attend`, `live` and `watch` have the same.
    fn form(alloc: Global) -> Result<Command<'a>, AllocError> {
        command_with(alloc, "mix", &["CONF"], &[])
    }

    fn from_matches(matches: &ArgMatches<'a>) -> Option<MixWords<'a>> {
        let conference = matches.get_str("CONF")?;
        Some(MixWords { conference })
    }
}

impl<'a> Arguments<'a> for MakeWords {
    ghost Meant = { table.Command };

    ghost table_row = { record { meant = λ m. table.Make (made m); given = make_given; said = table.make_words } };

    /// `make N`.
    fn form(alloc: Global) -> Result<Command<'a>, AllocError> {
        command_with(alloc, "make", &["N"], &[])
    }

    fn from_matches(matches: &ArgMatches<'a>) -> Option<MakeWords> {
        let number = number_from(matches.get_str("N")?, 1, 1000)?;
        Some(MakeWords { number })
    }
}

impl<'a> Arguments<'a> for ChannelWords<'a> {
    ghost Meant = { table.ChannelWords };

    ghost table_row = { record { meant = channelled; given = channel_given; said = table.channel_words } };

    /// `channel FILE SSRC OUT`. `cascade` has as many.
    fn form(alloc: Global) -> Result<Command<'a>, AllocError> {
        command_with(alloc, "channel", &["FILE", "SSRC", "OUT"], &[])
    }

    fn from_matches(matches: &ArgMatches<'a>) -> Option<ChannelWords<'a>> {
        let file = matches.get_str("FILE")?;
        let ssrc = number_of(matches.get_str("SSRC")?, u32::MAX)?;
        let out = matches.get_str("OUT")?;
        Some(ChannelWords { file, ssrc, out })
    }
}

impl<'a> Arguments<'a> for Topic {
    ghost Meant = { table.Command };

    ghost table_row = { record { meant = table.Help; given = help_given; said = table.help_words } };

    /// `help`, and then COMMAND. `--help` and `-h` have the same.
    fn form(alloc: Global) -> Result<Command<'a>, AllocError> {
        command_with(alloc, "help", &[], &["COMMAND"])
    }

    fn from_matches(matches: &ArgMatches<'a>) -> Option<Topic> {
        match matches.get_str("COMMAND") {
            None => Some(Topic::Usage),
            Some(name) => topic_of(name),
        }
    }
}

/// What `version` is asked for, which takes no words.
#[derive(Drop)]
pub(crate) struct NoWords;

impl<'a> Arguments<'a> for NoWords {
    ghost Meant = { table.Command };

    ghost table_row = { record { meant = λ _. table.Version; given = version_given; said = table.version_words } };

    /// `version`. `--version` has as many.
    fn form(alloc: Global) -> Result<Command<'a>, AllocError> {
        command_with(alloc, "version", &[], &[])
    }

    fn from_matches(_matches: &ArgMatches<'a>) -> Option<NoWords> {
        Some(NoWords)
    }
}
