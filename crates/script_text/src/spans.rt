//! Where the texts of a script stand.

/// A line whose text stands from `from` up to `to` in the texts of its script.
#[derive(Clone, Copy, Debug)]
pub(crate) struct Span {
    pub line: u32,
    pub at: u32,
    pub from: usize,
    pub to: usize,
}
