//! A run: what one speaker was given since another one was, or since its label went alone.
ghost use Rattle.std.specs.Prelude.{◌≡◌, ◌+◌, ◌-◌, ◌^◌, ◌<◌, ◌≤◌, ◌++◌, ℕ, Bool, List, [], length, take, All, chars, IsUtf8, encode_utf8, true, false};
ghost use Rattle.std.specs.Bool.{OnTrue};
ghost use Rattle.view_spec.specs.Characters.{opens};
ghost use Rattle.view_spec.specs.TextViews.{is_direction, label_after, without_directions};
ghost use Rattle.unaware_view.specs.Runs.{GoesAlone, IsBegun, IsPlain, IsRun, Sends, Writes, after_one, before_by, erasable_by, is_headed, is_seen_at, is_turn, label_by, label_room, pushed_all, sent_for, stepped, text_after_one, text_of_one, with_one, with_plain};
ghost use Rattle.rtt_base.specs.declared.limits.TheConstants.{MOST_TEXT_OCTETS};

use crate::labels::{append, label};
use rtt_base::Text;
use t140_text::{TextEnd, class};
use view_spec::CharClass;

/// What is kept of a run: as much of a long one as of a short one.
#[derive(Debug, Drop)]
pub(crate) struct Run {
    /// How many of its characters an erasure can take back, one after the other: of those behind its label, or of all
    /// where that is to come.
    pub(crate) erasable: u64,
    /// Whether CR came last of all that was given, so that an LF is a part of the new line before it, which is counted or
    /// another run's.
    pub(crate) after_cr: bool,
    /// What its text ends with.
    pub(crate) ending: TextEnd,
    /// Whether a chunk stands in it.
    pub(crate) has_chunk: bool,
    /// Whether its label was given.
    pub(crate) labelled: bool,
    /// Whether a line is open behind all that was given: bells and silent characters passed over, the last character is
    /// there and is no new line.
    pub(crate) is_open: bool,
}

/// How many characters an erasure can take back with one character more, which is of this class, where there were `n`, after
/// CR or not.
fn erasable_by(class: CharClass, after_cr: bool, n: u64, c: char) -> u64
    requires { n + 1 < 2 ^ 64 }
    ensures { result ≡ erasable_by class after_cr n c }
{
    match class {
        CharClass::Erase => n.saturating_sub(1),
        CharClass::NewLine if c == '\n' && after_cr => n,
        CharClass::NewLine | CharClass::Print => n + 1,
        CharClass::Marker => 0,
        CharClass::Bell | CharClass::Silent => n,
    }
}

/// Whether a line is open behind a character of this class.
fn opens(class: CharClass, was: bool) -> bool
    ensures { result ≡ opens class was }
{
    match class {
        CharClass::NewLine => false,
        CharClass::Bell | CharClass::Silent => was,
        CharClass::Print | CharClass::Marker | CharClass::Erase => true,
    }
}

/// What is sent for a character where `n` can be taken back: `X` for an erasure that finds none, and a parenthesis for a
/// bracket, which only a label has.
fn sent_for(n: u64, c: char) -> char
    ensures { result ≡ sent_for n c }
{
    match c {
        '\u{8}' if n == 0 => 'X',
        '[' => '(',
        ']' => ')',
        '\u{ff3b}' => '\u{ff08}',
        '\u{ff3d}' => '\u{ff09}',
        _ => c,
    }
}

/// Whether a character turns the direction in which text runs, and not only its own: an embedding, an override or an isolate, or
/// the end of one.
fn is_direction(c: char) -> bool
    ensures { result ≡ is_direction c }
{
    ('\u{202a}' <= c && c <= '\u{202e}') || ('\u{2066}' <= c && c <= '\u{2069}')
}

/// Whether a character prints, or is sent as `X`, where `n` can be taken back.
fn is_seen(n: u64, c: char) -> bool
    ensures { result ≡ is_seen_at n c }
{
    match class(c) {
        CharClass::Print | CharClass::Marker => true,
        _ => c == '\u{8}' && n == 0,
    }
}

/// More characters behind a text of which this is the end, each of one octet. Only the last three are read.
fn push_octets(ending: &mut TextEnd, octets: &[u8])
    ensures { ending.new ≡ pushed_all ending.old octets.now }
{
    let from = octets.len().saturating_sub(3);
    for octet in &octets[from..] {
        ending.push(char::from(*octet));
    }
}

/// Whether this is a printable character of ASCII that is sent as it is: no bracket.
fn is_plain(octet: u8) -> bool
    ensures { OnTrue result (IsPlain octet) }
{
    b' ' <= octet && octet <= b'~' && octet != b'[' && octet != b']'
}

/// How many plain octets stand at the front.
fn plain_len(octets: &[u8]) -> usize
    ensures fits { result ≤ length octets.now }
    ensures plain { All IsPlain (take result octets.now) }
{
    let mut len = 0;
    while len < octets.len() && is_plain(octets[len]) {
        len += 1;
    }
    len
}

impl Run {
    /// What is kept where there is no run.
    pub(crate) const fn new() -> Run
        ensures run { (behind_cr : Bool) → IsRun result true behind_cr [] }
        ensures empty { result.has_chunk ≡ false }
        ensures none { result.erasable ≡ 0 }
        ensures closed { result.is_open ≡ false }
    {
        Run {
            erasable: 0,
            after_cr: false,
            ending: TextEnd::new(),
            has_chunk: false,
            labelled: true,
            is_open: false,
        }
    }

    /// Begins another run, whose label is to come.
    pub(crate) fn begin(&mut self)
        ensures { IsBegun self.old self.new }
    {
        self.erasable = 0;
        self.ending = TextEnd::new();
        self.has_chunk = false;
        self.labelled = false;
    }

    /// Begins another run with its label alone.
    pub(crate) fn begin_alone(&mut self, name: &str, out: &mut Text)
        requires fits { length out.old + length (label_after self.old.is_open name.now) ≤ MOST_TEXT_OCTETS }
        requires empty { out.old ≡ [] }
        ensures alone { GoesAlone name.now self.old self.new out.new }
        ensures none { self.new.erasable ≡ 0 }
    {
        label(name, self.is_open, out);
        *self = Run::new();
        self.is_open = true;
    }

    /// Whether another speaker may follow: the text ends a line or a sentence.
    pub(crate) fn ends_turn(&self) -> bool
        ensures { result ≡ is_turn self.now.ending }
    {
        let line = self.ending.ends_line();
        line || self.ending.ends_sentence()
    }

    /// Whether the label goes before this character.
    fn is_headed(&self, c: char) -> bool
        ensures { result ≡ is_headed self.now c }
    {
        !self.labelled && is_seen(self.erasable, c)
    }

    /// Reads the next character, and answers with the one that is sent for it.
    fn read(&mut self, c: char) -> char
        requires { self.old.erasable + 1 < 2 ^ 64 }
        ensures run { self.new ≡ with_one self.old c }
        ensures sent { result ≡ sent_for self.old.erasable c }
    {
        let sent = sent_for(self.erasable, c);
        let kind = class(c);
        let erasable = erasable_by(kind, self.after_cr, self.erasable, c);
        let is_open = opens(kind, self.is_open);
        self.erasable = erasable;
        self.after_cr = c == '\r';
        self.ending.push(c);
        self.is_open = is_open;
        sent
    }

    /// Writes the label before this character where it goes there. Behind it the run is counted afresh.
    fn head_before(&mut self, name: &str, c: char, out: &mut Text)
        requires { length out.old + label_room self.old.labelled name.now ≤ MOST_TEXT_OCTETS }
        ensures run { self.new ≡ before_by (is_headed self.old c) self.old }
        ensures out { out.new ≡ out.old ++ label_by (is_headed self.old c) name.now self.old }
        ensures fits { length out.new + label_room self.new.labelled name.now
            ≤ length out.old + label_room self.old.labelled name.now }
    {
        if !self.is_headed(c) {
            return;
        }
        label(name, self.is_open, out);
        self.labelled = true;
        self.erasable = 0;
        self.after_cr = false;
    }

    /// Writes the next character, and the label before it where it is the first that is seen.
    fn write_one(&mut self, name: &str, c: char, out: &mut Text)
        requires bound { self.old.erasable + 1 < 2 ^ 64 }
        requires fits { length out.old + label_room self.old.labelled name.now + length (encode_utf8 c) ≤ MOST_TEXT_OCTETS }
        ensures run { self.new ≡ stepped self.old c }
        ensures out { out.new ≡ out.old ++ text_of_one name.now self.old c }
        ensures fits { length out.new + label_room self.new.labelled name.now
            ≤ length out.old + label_room self.old.labelled name.now + length (encode_utf8 c) }
        ensures bound { self.new.erasable ≤ self.old.erasable + 1 }
        ensures kept { self.new.has_chunk ≡ self.old.has_chunk }
    {
        self.head_before(name, c, out);
        let sent = self.read(c);
        push(sent, out);
    }

    /// Writes the next character, but for a direction, which is left out.
    fn write_next(&mut self, name: &str, c: char, out: &mut Text)
        requires bound { self.old.erasable + 1 < 2 ^ 64 }
        requires fits { length out.old + label_room self.old.labelled name.now + length (encode_utf8 c) ≤ MOST_TEXT_OCTETS }
        ensures run { self.new ≡ after_one self.old c }
        ensures out { out.new ≡ out.old ++ text_after_one name.now self.old c }
        ensures fits { length out.new + label_room self.new.labelled name.now
            ≤ length out.old + label_room self.old.labelled name.now + length (encode_utf8 c) }
        ensures bound { self.new.erasable ≤ self.old.erasable + 1 }
        ensures kept { self.new.has_chunk ≡ self.old.has_chunk }
    {
        if is_direction(c) {
            return;
        }
        self.write_one(name, c, out);
    }

    /// Writes the first character of a text, if there is one, and answers with the others.
    fn write_first<'a>(&mut self, name: &str, text: &'a str, out: &mut Text) -> &'a str
        requires bound { self.old.erasable + length text.now < 2 ^ 64 }
        requires fits { length out.old + label_room self.old.labelled name.now + length text.now ≤ MOST_TEXT_OCTETS }
        ensures writes { (first : Run) (alone behind_cr : Bool) (run cs before : List ℕ)
            → Writes name.now first self.old alone behind_cr run cs before out.old text.now
            → Writes name.now first self.new alone behind_cr run cs before out.new result.now }
        ensures shorter { length result.now ≤ length text.now - 1 }
        ensures bound { self.new.erasable + length result.now ≤ self.old.erasable + length text.now }
        ensures fits { length out.new + label_room self.new.labelled name.now + length result.now ≤ MOST_TEXT_OCTETS }
        ensures kept { self.new.has_chunk ≡ self.old.has_chunk }
    {
        let mut chars = text.chars();
        let Some(c) = chars.next() else {
            return text;
        };
        self.write_next(name, c, out);
        chars.as_str()
    }

    /// Reads plain characters, at least one.
    fn read_plain(&mut self, plain: &[u8])
        requires { self.old.erasable + length plain.now < 2 ^ 64 }
        ensures { self.new ≡ with_plain self.old plain.now }
    {
        self.erasable += plain.len() as u64;
        self.after_cr = false;
        push_octets(&mut self.ending, plain);
        self.is_open = true;
    }

    /// Writes the plain characters at the front of a text, and the label before them where they are the first that are seen.
    /// Answers with the others.
    fn write_plain<'a>(&mut self, name: &str, text: &'a str, out: &mut Text) -> &'a str
        requires bound { self.old.erasable + length text.now < 2 ^ 64 }
        requires fits { length out.old + label_room self.old.labelled name.now + length text.now ≤ MOST_TEXT_OCTETS }
        ensures writes { (first : Run) (alone behind_cr : Bool) (run cs before : List ℕ)
            → Writes name.now first self.old alone behind_cr run cs before out.old text.now
            → Writes name.now first self.new alone behind_cr run cs before out.new result.now }
        ensures shorter { length result.now ≤ length text.now }
        ensures bound { self.new.erasable + length result.now ≤ self.old.erasable + length text.now }
        ensures fits { length out.new + label_room self.new.labelled name.now + length result.now ≤ MOST_TEXT_OCTETS }
        ensures kept { self.new.has_chunk ≡ self.old.has_chunk }
    {
        let (plain, rest) = text.split_at(plain_len(text.as_bytes()));
        let octets = plain.as_bytes();
        if octets.is_empty() {
            return text;
        }
        self.head_before(name, char::from(octets[0]), out);
        self.read_plain(octets);
        append(octets, out);
        rest
    }

    /// Appends a text of the run to `out`, as it is sent: without its directions.
    pub(crate) fn write(&mut self, name: &str, text: &str, out: &mut Text)
        requires bound { self.old.erasable + MOST_TEXT_OCTETS < 2 ^ 64 }
        requires fits { length out.old + label_room self.old.labelled name.now + length text.now ≤ MOST_TEXT_OCTETS }
        ensures sends { (alone behind_cr : Bool) (run : List ℕ) → IsUtf8 text.now → IsRun self.old alone behind_cr run
            → Sends name.now self.old self.new alone behind_cr run (without_directions (chars text.now)) out.old out.new }
        ensures bound { self.new.erasable ≤ self.old.erasable + length text.now }
        ensures kept { self.new.has_chunk ≡ self.old.has_chunk }
    {
        let mut rest = text;
        while !rest.is_empty() {
            let others = self.write_plain(name, rest, out);
            rest = self.write_first(name, others, out);
        }
    }
}

/// Appends a character, for which there must be room.
fn push(c: char, out: &mut Text)
    requires { length out.old + length (encode_utf8 c) ≤ MOST_TEXT_OCTETS }
    ensures { out.new ≡ out.old ++ encode_utf8 c }
{
    let mut octets = [0; 4];
    let text = c.encode_utf8(&mut octets);
    let Ok(()) = out.append(text.as_bytes()) else {
        unreachable!()
    };
}
