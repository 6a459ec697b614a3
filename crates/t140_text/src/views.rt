//! What is printed of a text, appended to what was printed before. Where memory runs out a part of it may be appended.
ghost use Rattle.std.specs.Prelude.{◌≡◌, ◌++◌, OnOk, flat_map};
ghost use Rattle.view_spec.specs.Views.{aware_title, counts_line, printed_lines, source_view, text_view, unaware_title};
ghost use Rattle.view_spec.specs.Tallies.{tally_heard, tally_line, tally_unheard};
ghost use Rattle.t140_text.specs.Displays.{Extends, display_of};

use crate::{Counts, Lines, Shown};
use itoa::Buffer;
use rtt_base::{Bytes, NoMemory};
use view_spec::Tally;

/// Appends the first line of the view of a terminal that keeps its sources apart.
#[tactic(auto, unfolding(view_spec::specs::Views::aware_title))]
pub fn append_aware_title(name: &[u8], out: &mut Bytes) -> Result<(), NoMemory>
    ensures ok { OnOk result (out.new ≡ out.old ++ aware_title name.now) }
    ensures kept { Extends out.old out.new }
{
    append_all(&[b"== ", name, b" aware\n"], out)
}

/// Appends the first line of the view of a terminal that gets one text.
#[tactic(auto, unfolding(view_spec::specs::Views::unaware_title))]
pub fn append_unaware_title(name: &[u8], out: &mut Bytes) -> Result<(), NoMemory>
    ensures ok { OnOk result (out.new ≡ out.old ++ unaware_title name.now) }
    ensures kept { Extends out.old out.new }
{
    append_all(&[b"== ", name, b" unaware\n"], out)
}

/// Appends one text with its counts, as `read` prints it.
#[tactic(auto, unfolding(view_spec::specs::Views::text_view))]
pub fn append_text_view(shown: &Shown, counts: Counts, out: &mut Bytes) -> Result<(), NoMemory>
    ensures ok { OnOk result (out.new ≡ out.old ++ text_view (display_of shown.now) counts) }
    ensures kept { Extends out.old out.new }
{
    let mut bells = Buffer::new();
    append_lines(b"", b"| ", &shown.lines, out)?;
    append_all(
        &[b"-- bells ", bells.format(shown.bells).as_bytes(), b"\n"],
        out,
    )?;
    append_counts(counts, out)
}

/// Appends what a source of an aware terminal shows.
#[tactic(auto, unfolding(view_spec::specs::Views::source_view))]
pub fn append_source_view(name: &[u8], shown: &Shown, out: &mut Bytes) -> Result<(), NoMemory>
    ensures ok { OnOk result (out.new ≡ out.old
        ++ source_view (record { name = name.now; display = display_of shown.now })) }
    ensures kept { Extends out.old out.new }
{
    let mut bells = Buffer::new();
    append_lines(name, b": ", &shown.lines, out)?;
    append_all(
        &[
            b"-- ",
            name,
            b" bells ",
            bells.format(shown.bells).as_bytes(),
            b"\n",
        ],
        out,
    )
}

/// Appends the line of counts.
#[tactic(auto, unfolding(view_spec::specs::Views::counts_line))]
pub fn append_counts(counts: Counts, out: &mut Bytes) -> Result<(), NoMemory>
    ensures ok { OnOk result (out.new ≡ out.old ++ counts_line counts) }
    ensures kept { Extends out.old out.new }
{
    let [mut packets, mut used, mut refused, mut foreign] = [Buffer::new(); 4];
    let parts: [&[u8]; 9] = [
        b"-- packets ",
        packets.format(counts.packets).as_bytes(),
        b" used ",
        used.format(counts.used).as_bytes(),
        b" refused ",
        refused.format(counts.refused).as_bytes(),
        b" foreign ",
        foreign.format(counts.foreign).as_bytes(),
        b"\n",
    ];
    append_all(&parts, out)
}

/// Appends the line of what is counted of the leg of this name.
pub fn append_tally(name: &[u8], tally: Tally, out: &mut Bytes) -> Result<(), NoMemory>
    ensures ok { OnOk result (out.new ≡ out.old ++ tally_line name.now tally) }
    ensures kept { Extends out.old out.new }
{
    append_heard(name, tally, out)?;
    append_unheard(tally, out)
}

// Appends how a leg of this name was heard.
#[tactic(auto, unfolding(view_spec::specs::Tallies::tally_heard))]
fn append_heard(name: &[u8], tally: Tally, out: &mut Bytes) -> Result<(), NoMemory>
    ensures ok { OnOk result (out.new ≡ out.old ++ tally_heard name.now tally) }
    ensures kept { Extends out.old out.new }
{
    let [mut came, mut text] = [Buffer::new(); 2];
    let parts: [&[u8]; 6] = [
        b"-- ",
        name,
        b" came ",
        came.format(tally.came).as_bytes(),
        b" text ",
        text.format(tally.text).as_bytes(),
    ];
    append_all(&parts, out)
}

// Appends what of a leg was not heard, and how many senders were.
#[tactic(auto, unfolding(view_spec::specs::Tallies::tally_unheard))]
fn append_unheard(tally: Tally, out: &mut Bytes) -> Result<(), NoMemory>
    ensures ok { OnOk result (out.new ≡ out.old ++ tally_unheard tally) }
    ensures kept { Extends out.old out.new }
{
    let [mut refused, mut foreign, mut senders] = [Buffer::new(); 3];
    let parts: [&[u8]; 7] = [
        b" refused ",
        refused.format(tally.refused).as_bytes(),
        b" foreign ",
        foreign.format(tally.foreign).as_bytes(),
        b" senders ",
        senders.format(tally.senders).as_bytes(),
        b"\n",
    ];
    append_all(&parts, out)
}

// Appends each line with a name and a sign in front of it and LF behind it.
fn append_lines(name: &[u8], sign: &[u8], lines: &Lines, out: &mut Bytes) -> Result<(), NoMemory>
    ensures ok { OnOk result (out.new ≡ out.old ++ printed_lines (name.now ++ sign.now) lines.now) }
    ensures kept { Extends out.old out.new }
{
    for line in lines.joined().split('\n') {
        append_all(&[name, sign, line.as_bytes(), b"\n"], out)?;
    }
    Ok(())
}

// Appends the parts in a row.
fn append_all(parts: &[&[u8]], out: &mut Bytes) -> Result<(), NoMemory>
    ensures ok { OnOk result (out.new ≡ out.old ++ flat_map (λ part. part.now) parts.now) }
    ensures kept { Extends out.old out.new }
{
    for part in parts {
        out.append(part)?;
    }
    Ok(())
}
