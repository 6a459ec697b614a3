//! Where a text ends a line or a sentence.
ghost use Rattle.std.specs.Prelude.{◌≡◌, ◌==◌, ◌++◌, ℕ, List, [], ◌∷◌, chars, if◌then◌else◌};
ghost use Rattle.view_spec.specs.Ends.{ends_line, ends_sentence, is_closing, is_stop, is_wide_closing, is_wide_stop};
ghost use Rattle.t140_text.specs.Endings.{IsEnding, is_line_end, is_sentence_end, pushed};

/// The last three characters of a text: as many as tell whether it ends a line or a sentence.
#[derive(Clone, Copy, Debug)]
pub struct TextEnd {
    last: char,
    second: char,
    third: char,
}

/// Whether a space must follow for the sentence to end.
fn is_stop(c: char) -> bool
    ensures { result ≡ is_stop c }
{
    matches!(
        c,
        '.' | '?' | '!' | '\u{61f}' | '\u{6d4}' | '\u{964}' | '\u{2026}'
    )
}

/// Whether the sentence ends also without a space.
fn is_wide_stop(c: char) -> bool
    ensures { result ≡ is_wide_stop c }
{
    matches!(c, '\u{3002}' | '\u{ff01}' | '\u{ff0e}' | '\u{ff1f}')
}

/// Whether it may stand behind any stop.
fn is_closing(c: char) -> bool
    ensures { result ≡ is_closing c }
{
    matches!(c, '"' | '\'' | ')' | '\u{2019}' | '\u{201d}')
}

/// Whether it may stand behind a wide stop.
fn is_wide_closing(c: char) -> bool
    ensures { result ≡ is_wide_closing c }
{
    is_closing(c) || matches!(c, '\u{300d}' | '\u{300f}' | '\u{ff09}')
}

/// The last character, or the one before it where a closing mark is last.
fn before_closing(is_closing: bool, last: char, second: char) -> char
    ensures { result ≡ (if is_closing then second else last) }
{
    if is_closing { second } else { last }
}

/// Whether a stop stands at the end of what a space follows, behind it one closing mark at most.
fn is_stopped(last: char, second: char) -> bool
    ensures { result ≡ is_stop (if is_closing last then second else last) }
{
    let stop = before_closing(is_closing(last), last, second);
    is_stop(stop)
}

/// Whether a wide stop stands at the end, behind it one closing mark at most.
fn is_wide_stopped(last: char, second: char) -> bool
    ensures { result ≡ is_wide_stop (if is_wide_closing last then second else last) }
{
    let stop = before_closing(is_wide_closing(last), last, second);
    is_wide_stop(stop)
}

impl TextEnd {
    /// The end of the empty text.
    pub const fn new() -> TextEnd
        ensures { IsEnding result [] }
    {
        TextEnd {
            last: '\0',
            second: '\0',
            third: '\0',
        }
    }

    /// One character more.
    pub const fn push(&mut self, c: char)
        ensures value { self.new ≡ pushed self.old c }
        ensures more { (cs : List ℕ) → IsEnding self.old cs → IsEnding self.new (cs ++ c ∷ []) }
    {
        self.third = self.second;
        self.second = self.last;
        self.last = c;
    }

    /// Whether the last character is a new line.
    fn is_line_end(&self) -> bool
        ensures { result ≡ is_line_end self.now }
    {
        matches!(self.last, '\n' | '\r' | '\u{2028}' | '\u{2029}')
    }

    /// Whether the three end a sentence.
    fn is_sentence_end(&self) -> bool
        ensures { result ≡ is_sentence_end self.now }
    {
        if self.last == ' ' {
            is_stopped(self.second, self.third) || is_wide_stopped(self.second, self.third)
        } else {
            is_wide_stopped(self.last, self.second)
        }
    }

    /// Whether the text's last character is a new line.
    pub fn ends_line(&self) -> bool
        ensures value { result ≡ is_line_end self.now }
        ensures line { (text : List ℕ) → IsEnding self.now (chars text) → result ≡ ends_line text }
    {
        self.is_line_end()
    }

    /// Whether the text ends with a stop and a space, or with a wide stop and at most one space; before the space one
    /// closing mark may stand.
    pub fn ends_sentence(&self) -> bool
        ensures value { result ≡ is_sentence_end self.now }
        ensures sentence { (text : List ℕ) → IsEnding self.now (chars text) → result ≡ ends_sentence text }
    {
        self.is_sentence_end()
    }
}
