use crate::{Journals, MemJournals, RealJournals};
use rtt_base::Path;
use rtt_io::{FailingCall, FailingWrite, Sink};
use std::test::Fail;

fn holds(journals: &MemJournals, name: &str, octets: &[u8]) -> bool {
    match journals.contents(name) {
        Some(found) => found == octets,
        None => false,
    }
}

#[test]
fn a_file_in_memory_has_what_it_took(rt: HostRuntime) -> Result<(), Fail> {
    let mut journals = MemJournals::new(rt.alloc());
    let mut file = journals.begin("a.rtp")?;
    file.write_part(b"one ")?;
    file.write_part(b"two")?;
    journals.done(file);
    assert!(rt; holds(&journals, "a.rtp", b"one two"));
    assert!(rt; journals.begin("a.rtp").is_err());
    assert!(rt; holds(&journals, "a.rtp", b"one two"));
    Ok(())
}

#[test]
fn what_a_failing_file_took_stays(rt: HostRuntime) -> Result<(), Fail> {
    let mut journals = MemJournals::new(rt.alloc());
    let write = FailingWrite {
        write: 2,
        through: 1,
    };
    journals.fail(FailingCall::Write(Path::from_text(rt.alloc(), "a.rtp")?, write))?;
    journals.fail(FailingCall::Create(Path::from_text(rt.alloc(), "b.rtp")?))?;
    assert!(rt; journals.begin("b.rtp").is_err());
    assert!(rt; journals.contents("b.rtp").is_none());
    let mut file = journals.begin("a.rtp")?;
    file.write_part(b"one ")?;
    assert!(rt; file.write_part(b"two").is_err());
    journals.done(file);
    assert!(rt; holds(&journals, "a.rtp", b"one t"));
    Ok(())
}

#[test]
fn a_real_file_grows_under_its_name_and_is_not_written_over(rt: HostRuntime) -> Result<(), Fail> {
    let mut journals = RealJournals::new(&rt, rt.alloc());
    let mut file = journals.begin("journal_io_test_file")?;
    file.write_part(b"one ")?;
    assert!(rt; journals.begin("journal_io_test_file").is_err());
    assert!(rt; std::fs::read(&rt, "journal_io_test_file")?.as_slice() == b"one ".as_slice());
    file.write_all(b"two")?;
    journals.done(file);
    assert!(rt; std::fs::read(&rt, "journal_io_test_file")?.as_slice() == b"one two".as_slice());
    std::fs::remove_file(&rt, "journal_io_test_file")?;
    Ok(())
}
