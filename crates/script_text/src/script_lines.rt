//! The lines of a script.

/// A text and when it is typed.
#[derive(Clone, Copy, Debug)]
pub struct ScriptLine<'a> {
    /// The number of the line in its file, from 1; 0 where there is no file.
    pub line: u32,
    /// When it is typed, in milliseconds.
    pub at: u32,
    /// What is typed, in UTF-8.
    pub text: &'a [u8],
}
