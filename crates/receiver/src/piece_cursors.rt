//! What one packet gives, piece by piece.
ghost use Rattle.std.specs.Prelude.{◌≡◌, ◌<◌, ◌≤◌, ◌∷◌, ◌++◌, ◌+◌, [], Bool, ℕ, drop, length, IfNone, IfSome};
ghost use Rattle.rtt_base.specs.declared.text_packets.TextPacket.{TextPacket};
ghost use Rattle.receiver.specs.declared.cuts.TextCut.{TextCut};
ghost use Rattle.receiver.specs.Cuts.{is_dropped, text_pieces, texts_given};
ghost use Rattle.receiver.specs.Pieces.{is_heard, left_of};
ghost use Rattle.receiver.specs.PiecesLeft.{is_given, pieces_left, rest_of};
ghost use Rattle.rtt_base.specs.declared.limits.TheConstants.{MOST_PRIMARY_OCTETS};

use crate::cuts::TextCut;
use crate::pieces::TextCursor;
use crate::text_ends::cut_at;
use rtt_base::{Octets, PrimaryText, Text, TextPacket};

/// What is still to be handed out of a packet that a receiver took.
#[derive(Drop)]
pub struct PieceCursor {
    /// What is still to be heard of it.
    pub(crate) texts: TextCursor,
    /// The text that was cut last,
    pub(crate) whole: PrimaryText,
    /// and where in it the next piece begins.
    pub(crate) from: usize,
}

/// Puts a copy of this text in place of what was there.
fn write_over<const MOST: usize>(place: &mut Octets<MOST>, text: &[u8])
    requires { length text.now ≤ MOST }
    ensures { place.new ≡ text.now }
{
    place.clear();
    let _ = place.append(text);
}

/// Puts the first piece of this text in place of what is in `out`.
fn put_piece(cut: TextCut, text: &[u8], out: &mut Text)
    requires some { 0 < length text.now }
    ensures pieces { text_pieces cut text.now ≡ out.new ∷ text_pieces cut (drop (length out.new) text.now) }
    ensures within { length out.new ≤ length text.now }
{
    let most = cut.most();
    if text.len() <= most {
        write_over(out, text);
        return;
    }
    let end = cut_at(text, most);
    write_over(out, &text[..end]);
}

/// The next text that is handed out, where it lies. The packet is the one that the receiver took.
fn next_text<'a>(texts: &mut TextCursor, cut: TextCut, packet: &'a TextPacket) -> Option<&'a [u8]>
    ensures some { IfSome result (λ text. texts_given cut (left_of texts.old packet.now)
        ≡ text_pieces cut text.now ++ texts_given cut (left_of texts.new packet.now)) }
    ensures text { IfSome result (λ text. 0 < length text.now) }
    ensures fits { IfSome result (λ text. length text.now ≤ MOST_PRIMARY_OCTETS) }
    ensures none { IfNone result (texts_given cut (left_of texts.old packet.now) ≡ []) }
    ensures heard { IfNone result (is_heard texts.new ≡ Bool.true) }
{
    while let Some(text) = texts.next(packet) {
        if !cut.drops(text) {
            return Some(text);
        }
    }
    None
}

impl PieceCursor {
    /// Nothing to hand out, of whatever packet.
    pub fn none() -> PieceCursor
        ensures { is_given result ≡ Bool.true }
    {
        PieceCursor {
            texts: TextCursor::none(),
            whole: PrimaryText::new(),
            from: 0,
        }
    }

    /// Lets go what is left.
    pub fn clear(&mut self)
        ensures { is_given self.new ≡ Bool.true }
    {
        self.texts = TextCursor::none();
        self.from = self.whole.len();
    }

    /// Begins with what is to be heard of another packet, behind what is left.
    pub fn begin(&mut self, texts: TextCursor)
        ensures { (cut : TextCut) (packet : TextPacket)
            → pieces_left cut self.new packet ≡ rest_of cut self.old ++ texts_given cut (left_of texts packet) }
    {
        self.texts = texts;
    }

    /// Puts the next piece of the text that was cut last in place of what is in `out`.
    fn go_on(&mut self, cut: TextCut, out: &mut Text)
        requires { self.old.from < length self.old.whole }
        ensures rest { rest_of cut self.old ≡ out.new ∷ rest_of cut self.new }
        ensures texts { self.new.texts ≡ self.old.texts }
    {
        put_piece(cut, &self.whole.as_slice()[self.from..], out);
        self.from += out.len();
    }

    /// Cuts this text, and puts its first piece in place of what is in `out`.
    fn cut(&mut self, cut: TextCut, text: &[u8], out: &mut Text)
        requires text { 0 < length text.now }
        requires fits { length text.now ≤ MOST_PRIMARY_OCTETS }
        requires none { length self.old.whole ≤ self.old.from }
        ensures pieces { text_pieces cut text.now ≡ out.new ∷ rest_of cut self.new }
        ensures texts { self.new.texts ≡ self.old.texts }
    {
        if text.len() <= cut.most() {
            write_over(out, text);
            return;
        }
        write_over(&mut self.whole, text);
        self.from = 0;
        self.go_on(cut, out);
    }

    /// Puts the next piece in place of what is in `out`, and tells whether there was one. The packet is the one that the
    /// receiver took.
    pub fn next(&mut self, cut: TextCut, packet: &TextPacket, out: &mut Text) -> bool
        ensures some { result ≡ Bool.true
            → pieces_left cut self.old packet.now ≡ out.new ∷ pieces_left cut self.new packet.now }
        ensures none { result ≡ Bool.false → pieces_left cut self.old packet.now ≡ [] }
        ensures given { result ≡ Bool.false → is_given self.new ≡ Bool.true }
    {
        if self.from < self.whole.len() {
            self.go_on(cut, out);
            return true;
        }
        let Some(text) = next_text(&mut self.texts, cut, packet) else {
            return false;
        };
        self.cut(cut, text, out);
        true
    }
}
