use crate::views::{
    append_aware_title, append_source_view, append_text_view, append_unaware_title,
};
use crate::{CharClass, Counts, TextEnd, class, show};
use rtt_base::Bytes;
use std::test::Fail;

#[test]
fn texts_are_shown(rt: HostRuntime) -> Result<(), Fail> {
    let cases = [
        ("", "", 0),
        ("AB", "AB", 0),
        ("ab\u{8}\u{8}\u{8}c", "c", 0),
        ("\u{8}\u{8}", "", 0),
        ("a\r\n\u{8}b", "ab", 0),
        ("a\r\n\u{8}\u{8}b", "b", 0),
        ("a\u{7}b", "ab", 1),
        ("a\u{7}\u{8}\u{7}", "", 2),
        ("a\rb", "a\nb", 0),
        ("a\nb", "a\nb", 0),
        ("a\u{2028}b", "a\nb", 0),
        ("a\n\rb", "a\n\nb", 0),
        ("\r\u{8}\n", "\n", 0),
        ("\r\u{feff}\n", "\n\n", 0),
        ("\u{feff}", "", 0),
        ("a\u{feff}\u{8}b", "b", 0),
        ("\u{0}\u{1f}\u{7f}\u{9f}", "", 0),
        ("\u{fffd}", "\u{fffd}", 0),
        ("ab\u{fffd}c\u{8}\u{8}\u{8}\u{8}d", "ab\u{fffd}d", 0),
        ("a\u{fffd}\u{fffd}\u{8}", "a\u{fffd}\u{fffd}", 0),
        ("\u{fffd}\n\u{8}\u{8}b", "\u{fffd}b", 0),
        (
            "Meet me at 10\u{fffd}\u{8}\u{8}15",
            "Meet me at 10\u{fffd}15",
            0,
        ),
        ("a\r\u{fffd}\n", "a\n\u{fffd}\n", 0),
        ("a\u{2029}b", "a\nb", 0),
        ("a\u{2029}\u{8}b", "ab", 0),
        ("é€𝄞\u{8}x", "é€x", 0),
        ("é€\u{8}\u{8}x", "x", 0),
    ];
    for (text, lines, bells) in cases {
        let shown = show(rt.alloc(), text.as_bytes())?;
        assert_eq!(rt; shown.lines.joined(), lines, "of {text:?}");
        assert_eq!(rt; shown.bells, bells, "of {text:?}");
    }
    Ok(())
}

#[test]
fn a_new_line_cut_between_two_blocks_is_one(rt: HostRuntime) -> Result<(), Fail> {
    let mut text = String::new(rt.alloc());
    text.push_str("a\r")?;
    text.push_str("\nb")?;
    let shown = show(rt.alloc(), text.as_bytes())?;
    assert_eq!(rt; shown.lines.joined(), "a\nb");
    Ok(())
}

#[test]
fn characters_have_classes(rt: HostRuntime) {
    let cases = [
        ('\u{8}', CharClass::Erase),
        ('\u{7}', CharClass::Bell),
        ('\r', CharClass::NewLine),
        ('\n', CharClass::NewLine),
        ('\u{2028}', CharClass::NewLine),
        ('\u{2029}', CharClass::NewLine),
        ('\t', CharClass::Silent),
        ('\u{1b}', CharClass::Silent),
        ('\u{7f}', CharClass::Silent),
        ('\u{85}', CharClass::Silent),
        ('\u{a0}', CharClass::Print),
        ('\u{feff}', CharClass::Silent),
        ('\u{fffd}', CharClass::Marker),
        ('\u{fffc}', CharClass::Print),
        (' ', CharClass::Print),
        ('~', CharClass::Print),
        ('\u{10ffff}', CharClass::Print),
    ];
    for (c, expected) in cases {
        assert_eq!(rt; class(c), expected, "of {c:?}");
    }
}

#[test]
fn texts_end_lines_and_sentences(rt: HostRuntime) {
    let cases = [
        ("", false, false),
        ("Hi. ", false, true),
        ("Hi.", false, false),
        ("Hi? ", false, true),
        ("Hi! ", false, true),
        ("Hi, ", false, false),
        (". ", false, true),
        ("Hi. \n", true, false),
        ("Hi\r", true, false),
        ("Hi\r\n", true, false),
        ("Hi\u{2028}", true, false),
        ("Hi\u{2029}", true, false),
        ("\nHi", false, false),
        ("Hi.  ", false, false),
        ("\"Hi.\" ", false, true),
        ("\"Hi.\"", false, false),
        ("(Hi.)' ", false, false),
        ("\u{201c}Hi\u{2026}\u{201d} ", false, true),
        ("\u{643}\u{61f} ", false, true),
        ("\u{642}\u{6d4} ", false, true),
        ("\u{939}\u{964} ", false, true),
        ("\u{939}\u{964}", false, false),
        ("\u{597d}\u{3002}", false, true),
        ("\u{597d}\u{ff01} ", false, true),
        ("\u{597d}\u{ff1f}\u{300d}", false, true),
        ("\u{597d}\u{ff0e}\u{300f} ", false, true),
        ("\u{597d}\u{3002}\u{201d}", false, true),
        ("\u{597d}\u{3002}\u{300d}\u{300f}", false, false),
        ("Hi.\u{300d} ", false, false),
    ];
    for (text, line, sentence) in cases {
        let mut ending = TextEnd::new();
        for c in text.chars() {
            ending.push(c);
        }
        assert_eq!(rt; ending.ends_line(), line, "of {text:?}");
        assert_eq!(rt; ending.ends_sentence(), sentence, "of {text:?}");
    }
}

#[test]
fn views_are_printed(rt: HostRuntime) -> Result<(), Fail> {
    let counts = Counts {
        packets: 4,
        used: 3,
        refused: 10,
        foreign: 0,
    };
    let mut out = Bytes::new(rt.alloc());
    append_unaware_title(b"Ann", &mut out)?;
    let shown = show(rt.alloc(), "[Bob] Hi. \u{2028}[Cy] yes\u{7}".as_bytes())?;
    append_text_view(&shown, counts, &mut out)?;
    append_aware_title(b"Bob", &mut out)?;
    append_source_view(b"Cy", &show(rt.alloc(), "yes\n".as_bytes())?, &mut out)?;
    append_source_view(b"Ann", &show(rt.alloc(), "".as_bytes())?, &mut out)?;
    let expected = b"== Ann unaware\n| [Bob] Hi. \n| [Cy] yes\n-- bells 1\n\
        -- packets 4 used 3 refused 10 foreign 0\n\
        == Bob aware\nCy: yes\nCy: \n-- Cy bells 0\nAnn: \n-- Ann bells 0\n";
    assert_eq!(rt; out.as_slice(), expected.as_slice());
    Ok(())
}

#[test]
fn the_view_of_an_empty_text_has_one_line(rt: HostRuntime) -> Result<(), Fail> {
    let mut out = Bytes::new(rt.alloc());
    let shown = show(rt.alloc(), "".as_bytes())?;
    append_text_view(&shown, Counts::default(), &mut out)?;
    let expected = b"| \n-- bells 0\n-- packets 0 used 0 refused 0 foreign 0\n";
    assert_eq!(rt; out.as_slice(), expected.as_slice());
    Ok(())
}
