//! Why a line of a conference or a script is refused.
use thiserror::Error;

/// Why a line of a conference or a script is refused.
#[derive(Clone, Copy, Debug, PartialEq, Eq, Error)]
pub enum ConfKind {
    /// The line is not UTF-8.
    #[error("NotText")]
    NotText,
    /// The first word begins no line, or a leg is neither aware nor unaware.
    #[error("Word")]
    Word,
    /// The number of words is none of the line's, or a script line has no space.
    #[error("Count")]
    Count,
    /// A name, a path or an operator's word is outside its shape, or no leg above has the name.
    #[error("Name")]
    Name,
    /// A number is none, or out of its range, or a stay ends before it begins.
    #[error("Number")]
    Number,
    /// There are more legs than a conference may have.
    #[error("Many")]
    Many,
    /// There are more plan lines than a conference may have.
    #[error("PlanMany")]
    PlanMany,
    /// A line above says the same.
    #[error("Twice")]
    Twice,
    /// Two of the conference's SSRCs, paths, ports or payload types may not be the same.
    #[error("Clash")]
    Clash,
    /// There are fewer than two legs, or there is no mixer.
    #[error("Few")]
    Few,
    /// At some moment more legs stay than the mixer has places.
    #[error("Crowd")]
    Crowd,
    /// The file has too many octets.
    #[error("Large")]
    Large,
    /// A script line is typed before one above it.
    #[error("Order")]
    Order,
    /// A backslash is followed by nothing that it may stand before.
    #[error("Escape")]
    Escape,
    /// A text has more than 1023 octets.
    #[error("Long")]
    Long,
    /// More text waits than a sender holds.
    #[error("Full")]
    Full,
}
