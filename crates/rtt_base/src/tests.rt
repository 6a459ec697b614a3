use crate::{
    Blocks, Bytes, GrowingList, Name, OctetBuffer, Octets, Packet, Path, Text, TextBlock, after,
};
use std::test::Fail;

#[test]
fn timestamps_are_ordered_within_half_the_circle(rt: HostRuntime) {
    let cases = [
        (1, 0, true),
        (0, 0, false),
        (0, 1, false),
        (0, 4294967295, true),
        (2147483647, 0, true),
        (2147483648, 0, false),
        (2147483649, 0, false),
    ];
    for (x, y, expected) in cases {
        assert_eq!(rt; after(x, y), expected);
    }
}

/// Whether all of these octets fit into what is empty, and not one more.
fn are_most<const MOST: usize>(mut out: Octets<MOST>, octets: &[u8]) -> bool {
    out.append(octets).is_ok() && out.append(b"a").is_err() && out.len() == octets.len()
}

#[test]
fn a_text_takes_1023_octets_and_a_packet_4224(rt: HostRuntime) {
    assert!(rt; are_most(Text::new(), &[65; 1023]));
    assert!(rt; are_most(Packet::new(), &[0; 4224]));
}

#[test]
fn what_does_not_fit_leaves_a_text_as_it_was(rt: HostRuntime) {
    let mut text = Text::new();
    assert!(rt; text.append(&[65; 1022]).is_ok());
    assert!(rt; text.append(&[65; 2]).is_err());
    assert_eq!(rt; text.len(), 1022);
    text.push(66);
    assert_eq!(rt; text.len(), 1023);
    text.clear();
    assert!(rt; text.is_empty());
}

#[test]
fn blocks_keep_their_order(rt: HostRuntime) {
    let mut blocks = Blocks::new();
    for offset in [600, 300, 0] {
        if blocks.len() < Blocks::CAPACITY {
            blocks.push(TextBlock {
                offset,
                text: Text::new(),
            });
        }
    }
    assert_eq!(rt; blocks.len(), 3);
    assert_eq!(rt; blocks.as_slice()[1].offset, 300);
}

#[test]
fn what_grows_finds_memory(rt: HostRuntime) -> Result<(), Fail> {
    let mut bytes = Bytes::new(rt.alloc());
    bytes.push(65)?;
    bytes.append(b"nn")?;
    assert_eq!(rt; bytes.as_slice(), b"Ann".as_slice());
    let mut numbers = GrowingList::new(rt.alloc());
    numbers.push(7_u32)?;
    if !numbers.is_empty() {
        *numbers.item_mut(0) = 8;
    }
    assert_eq!(rt; numbers.as_slice(), [8].as_slice());
    let path = Path::from_text(rt.alloc(), "ann.rtp")?;
    assert_eq!(rt; path.as_str(), "ann.rtp");
    let mut name = Name::new();
    name.push('A');
    assert_eq!(rt; name.as_str(), "A");
    Ok(())
}

/// Appends `ab`, keeps the first octet, and answers how many there are.
fn append_and_cut<O: OctetBuffer>(out: &mut O) -> usize {
    let taken = out.append(b"ab").is_ok();
    out.truncate(1);
    if taken { out.len() } else { 0 }
}

#[test]
fn a_packet_and_a_list_are_appended_to_alike(rt: HostRuntime) {
    let mut packet = Packet::new();
    assert_eq!(rt; append_and_cut(&mut packet), 1);
    assert_eq!(rt; packet.as_slice(), b"a".as_slice());
    let mut bytes = Bytes::new(rt.alloc());
    assert_eq!(rt; append_and_cut(&mut bytes), 1);
    assert_eq!(rt; bytes.as_slice(), b"a".as_slice());
}
