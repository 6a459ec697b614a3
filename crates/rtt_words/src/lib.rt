//! Command words: what they ask for, if they are in the word table.
#![tactic(auto)]

mod arguments;
mod commands;
mod forms;
mod topics;
mod words;

pub use commands::{
    CascadeWords, ChannelWords, CheckWords, Command, ListWords, MakeWords, MixWords, ReadWords,
    SendWords,
};
pub use topics::{Topic, help_text};
pub use words::{WordFault, command_of};
