//! The classes of characters.

/// What a character does on a display (T.140).
#[derive(Clone, Copy, Debug, PartialEq, Eq)]
pub enum CharClass {
    /// U+0008 takes back the last character or new line that still stands, and nothing before a marker.
    Erase,
    /// U+0007 rings and shows nothing.
    Bell,
    /// U+2028, U+2029, CR or LF begins a new line.
    NewLine,
    /// The other control characters and U+FEFF show nothing.
    Silent,
    /// U+FFFD says that text is missing. It is shown as it is, and nothing takes it back.
    Marker,
    /// Every other character is shown as it is.
    Print,
}
