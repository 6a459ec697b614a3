//! The limits of conferences and scripts. Moments and lengths of time are in milliseconds, sizes in octets.

use rtt_base::limits::MOST_TEXT_OCTETS;

/// The fewest legs of a conference.
pub const FEWEST_LEGS: usize = 2;
/// The most legs of a conference of files.
pub const MOST_LEGS: usize = 64;
/// The most legs of a conference of links.
pub const MOST_LINKS: usize = 16;
/// The most legs that stay at one moment.
pub const MOST_STAYING: usize = 16;

/// The range of the milliseconds between two turns of the mixer.
pub const LEAST_TICK: u32 = 20;

pub const MOST_TICK: u32 = 200;

pub const USUAL_TICK: u32 = 100;
/// The range of the milliseconds between two packets of a source to a terminal.
pub const LEAST_SPACING: u32 = 100;

pub const MOST_SPACING: u32 = 500;

pub const USUAL_SPACING: u32 = 300;
/// The range of the milliseconds after which a run that goes on is labelled again.
pub const LEAST_RELABEL: u32 = 2000;

pub const MOST_RELABEL: u32 = 60_000;
/// The range of the octets to which packets may be limited: with the headers of IP and UDP the least go into the 576 octets that each
/// host of IPv4 takes (RFC 791, section 3.1).
pub const LEAST_MTU: u32 = 548;

pub const MOST_MTU: u32 = 4224;
/// The range of the milliseconds after which a link at which nothing comes is closed: ten seconds to a day.
pub const LEAST_GONE: u32 = 10_000;

pub const MOST_GONE: u32 = 86_400_000;
/// How many turns the mixer may take: at least one.
pub const MOST_TURNS: u32 = 5_000_000;
/// How many redundant generations a terminal is sent.
pub const MOST_GENERATIONS: u32 = 3;

pub const USUAL_GENERATIONS: u8 = 2;

/// The most lines of a plan.
pub const MOST_PLAN_LINES: usize = 4096;
/// The longest delay of a packet in a plan.
pub const LONGEST_DELAY: u32 = 60_000;

/// The last moment of a script line and of a stay: four hours.
pub const LAST_MOMENT: u32 = 14_400_000;

/// The dynamic payload types (RFC 3551, section 3).
pub const FIRST_TYPE: u32 = 96;

pub const LAST_TYPE: u32 = 127;
/// The payload types of a leg that names none.
pub const USUAL_T140: u8 = 98;

pub const USUAL_RED: u8 = 100;

/// The longest name of a leg.
pub const LONGEST_NAME: usize = 32;
/// The longest input and output of a leg.
pub const LONGEST_PATH: usize = 255;
/// The shortest and the longest word of an operator.
pub const SHORTEST_WORD: usize = 8;

pub const LONGEST_WORD: usize = 64;
/// The greatest size of a conference file.
pub const MOST_CONFERENCE_OCTETS: usize = 262_144;
/// The greatest size of a script.
pub const MOST_SCRIPT_OCTETS: usize = 1_048_576;
/// The longest text of a script line, its escapes read.
pub const LONGEST_TEXT: usize = MOST_TEXT_OCTETS;
