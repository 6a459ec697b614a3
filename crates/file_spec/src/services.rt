//! What is asked beside the mixing.
ghost use Rattle.std.specs.Prelude.{◌≡◌, ◌≤◌, length};

use arrayvec::ArrayString;
use std::marker::Model;

/// The word with which an operator's datagrams begin, of at most 64 octets of UTF-8. Contracts see its octets.
#[derive(Debug, Default, Drop)]
pub struct OperatorWord {
    text: ArrayString<64>,
}

impl Model for OperatorWord {
    ghost use Rattle.std.specs.Prelude.{ℕ, List};

    ghost Value = { List ℕ };

    ghost view = { λ w. w.text.bytes };
}

impl OperatorWord {
    /// The word that is this text.
    pub fn from_text(text: &str) -> OperatorWord
        requires { length text.now ≤ 64 }
        ensures { result ≡ text.now }
    {
        let mut word = ArrayString::new();
        word.push_str(text);
        OperatorWord { text: word }
    }

    pub fn as_str(&self) -> &str
        ensures { result.now ≡ self.now }
    {
        self.text.as_str()
    }
}

/// What the names of a call's recordings begin with, of at most 255 octets of UTF-8. Contracts see its octets.
#[derive(Debug, Default, Drop)]
pub struct RecordPrefix {
    text: ArrayString<255>,
}

impl Model for RecordPrefix {
    ghost use Rattle.std.specs.Prelude.{ℕ, List};

    ghost Value = { List ℕ };

    ghost view = { λ p. p.text.bytes };
}

impl RecordPrefix {
    /// The prefix that is this text.
    pub fn from_text(text: &str) -> RecordPrefix
        requires { length text.now ≤ 255 }
        ensures { result ≡ text.now }
    {
        let mut prefix = ArrayString::new();
        prefix.push_str(text);
        RecordPrefix { text: prefix }
    }

    pub fn as_str(&self) -> &str
        ensures { result.now ≡ self.now }
    {
        self.text.as_str()
    }
}

/// Where an operator is heard.
#[derive(Debug, Drop)]
pub struct OperatorLine {
    /// A port that no leg has.
    pub port: u16,
    pub word: OperatorWord,
}

/// What one line asks.
#[derive(Debug, Drop)]
pub enum ServiceLine {
    /// A link at which nothing comes for so many milliseconds is closed.
    Gone(u32),
    /// An operator is heard.
    Operator(OperatorLine),
    /// What comes and what is sent is recorded, in files whose names begin so.
    Record(RecordPrefix),
    /// Behind the views it is told how much came from each leg.
    Counts,
}

/// What is asked beside the mixing: `counts` of any conference, the rest of a call over links.
#[derive(Debug, Drop)]
pub struct Service {
    /// After how many milliseconds in which nothing comes a link is closed, if it is.
    pub gone: Option<u32>,
    pub operator: Option<OperatorLine>,
    /// What the names of its recordings begin with, if it is recorded.
    pub recorded: Option<RecordPrefix>,
    /// Whether it is told behind the views how much came from each leg.
    pub counts: bool,
}

impl Service {
    ghost use Rattle.std.specs.Prelude.{◌≡◌};
    ghost use Rattle.file_spec.specs.Services.{no_service, with_service};

    /// Nothing is asked.
    pub fn none() -> Service
        ensures { result ≡ no_service }
    {
        Service {
            gone: None,
            operator: None,
            recorded: None,
            counts: false,
        }
    }

    /// Asks for what one line more does.
    pub fn add(&mut self, line: ServiceLine)
        ensures { self.new ≡ with_service self.old line }
    {
        match line {
            ServiceLine::Gone(silence) => self.gone = Some(silence),
            ServiceLine::Operator(operator) => self.operator = Some(operator),
            ServiceLine::Record(prefix) => self.recorded = Some(prefix),
            ServiceLine::Counts => self.counts = true,
        }
    }
}
