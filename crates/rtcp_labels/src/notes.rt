//! The events that are noted, and whether there were more than fit.
ghost use Rattle.std.specs.Prelude.{◌≡◌, ◌≤◌, length};
ghost use Rattle.wire_spec.specs.Rtcp.{name_in};
ghost use Rattle.rtcp_labels.specs.Notes.{notes, noted, all_noted};

use simdutf8::basic::from_utf8;
use wire_spec::{Event, Events, MOST_EVENTS, RtcpRefusal, SdesName};

/// What octets tell, or why they are refused.
pub(crate) type ReadResult<T> = Result<T, RtcpRefusal>;

/// The type of the item that is a source's name.
const NAME: u8 = 2;

/// Notes an event, or that there were more than fit.
pub(crate) fn note(event: Event, out: &mut Events, many: &mut bool)
    ensures { notes out.new.items many.new ≡ noted (notes out.old.items many.old) event }
{
    if out.len() < MOST_EVENTS {
        out.push(event);
    } else {
        *many = true;
    }
}

/// Notes what an item tells of a source.
pub(crate) fn note_item(ssrc: u32, kind: u8, text: &[u8], out: &mut Events, many: &mut bool)
    requires { length text.now ≤ 255 }
    ensures { notes out.new.items many.new ≡ all_noted (notes out.old.items many.old) (name_in ssrc (record { kind = kind; text = text.now })) }
{
    if kind != NAME || text.is_empty() {
        return;
    }
    if let Ok(name) = from_utf8(text) {
        note(
            Event::Name {
                ssrc,
                name: SdesName::from_text(name),
            },
            out,
            many,
        );
    }
}
