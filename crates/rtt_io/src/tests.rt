use crate::{
    FailingCall, FailingWrite, FileSink, FileSource, MemSink, MemSource, MemWorld, ReadFault,
    RealWorld, Sink, Source, SteadySource, StoredWriter, StreamSink, World, read_whole,
};
use rtt_base::{Bytes, Failed, NoMemory, Path};
use std::alloc::Global;
use std::io::{ErrorKind, Write};
use std::test::Fail;

fn holds(world: &MemWorld, name: &str, octets: &[u8]) -> bool {
    match world.contents(name) {
        Some(stored) => stored == octets,
        None => false,
    }
}

fn bytes(alloc: Global, octets: &[u8]) -> Result<Bytes, NoMemory> {
    let mut bytes = Bytes::new(alloc);
    bytes.append(octets)?;
    Ok(bytes)
}

// The next read gives these octets.
fn reads<S: Source>(source: &mut S, octets: &[u8]) -> bool {
    let mut buf = [0; 16];
    match source.read(&mut buf) {
        Ok(number) => &buf[..number] == octets,
        Err(_) => false,
    }
}

// The next reads give these texts, one each.
fn reads_all<S: Source>(source: &mut S, texts: &[&str]) -> bool {
    for text in texts {
        if !reads(source, text.as_bytes()) {
            return false;
        }
    }
    true
}

// A sink in memory of which the write of this number is to take one octet, and fail.
fn failing_sink(alloc: Global, write: u64) -> Result<MemSink, NoMemory> {
    let mut sink = MemSink::new(alloc, Path::from_text(alloc, "a.out")?);
    sink.fail_at(FailingWrite { write, through: 1 })?;
    Ok(sink)
}

// A world in memory with files of these names, each of which holds `abc`.
fn world_of(alloc: Global, names: &[&str]) -> Result<MemWorld, NoMemory> {
    let mut world = MemWorld::new(alloc);
    for name in names {
        world.add_file(name, b"abc")?;
    }
    Ok(world)
}

#[test]
fn a_source_in_memory_fails_where_it_is_told_and_goes_on(rt: HostRuntime) -> Result<(), Fail> {
    let name = Path::from_text(rt.alloc(), "a.in")?;
    let mut source = MemSource::new(rt.alloc(), name, bytes(rt.alloc(), b"abcdefg")?);
    source.set_step(3);
    source.fail_at(2)?;
    assert!(rt; reads(&mut source, b"abc"));
    assert!(rt; source.read(&mut [0; 16]).is_err());
    assert!(rt; reads_all(&mut source, &["def", "g", ""]));
    Ok(())
}

#[test]
fn a_steady_source_answers_to_its_end(rt: HostRuntime) -> Result<(), Fail> {
    let mut source = SteadySource::new(bytes(rt.alloc(), b"abc")?);
    source.set_step(2);
    assert!(rt; reads_all(&mut source, &["ab", "c", ""]));
    Ok(())
}

#[test]
fn a_sink_in_memory_takes_a_part_of_a_failing_write(rt: HostRuntime) -> Result<(), Fail> {
    let mut sink = failing_sink(rt.alloc(), 2)?;
    sink.write_all(b"ab")?;
    assert!(rt; sink.write_all(b"cd").is_err());
    sink.write_all(b"ef")?;
    assert_eq!(rt; sink.taken(), b"abcef".as_slice());
    Ok(())
}

#[test]
fn a_world_in_memory_keeps_its_files(rt: HostRuntime) -> Result<(), Fail> {
    let mut world = MemWorld::new(rt.alloc());
    world.add_file("a.in", b"one")?;
    world.add_file("b.in", b"two")?;
    world.add_file("a.in", b"three")?;
    assert!(rt; world.open_source("c.in").is_err());
    let mut source = world.open_source("a.in")?;
    let mut sink = world.create_sink("a.out")?;
    assert!(rt; holds(&world, "a.out", b""));
    let mut buf = [0; 16];
    let number = source.read(&mut buf)?;
    if number <= buf.len() {
        sink.write_all(&buf[..number])?;
    }
    world.done_src(source);
    world.done_dst(sink);
    assert!(rt; holds(&world, "a.out", b"three"));
    assert!(rt; holds(&world, "b.in", b"two"));
    assert!(rt; world.contents("c.in").is_none());
    Ok(())
}

#[test]
fn each_kind_of_call_fails_in_a_world_that_says_so(rt: HostRuntime) -> Result<(), Fail> {
    let mut world = world_of(rt.alloc(), &["a", "b"])?;
    world.fail(FailingCall::Open(Path::from_text(rt.alloc(), "b")?))?;
    world.fail(FailingCall::Read(Path::from_text(rt.alloc(), "a")?, 1))?;
    world.fail(FailingCall::Create(Path::from_text(rt.alloc(), "b")?))?;
    let write = FailingWrite {
        write: 1,
        through: 2,
    };
    world.fail(FailingCall::Write(Path::from_text(rt.alloc(), "a")?, write))?;
    assert!(rt; world.open_source("b").is_err());
    assert!(rt; world.create_sink("b").is_err());
    assert!(rt; holds(&world, "b", b"abc"));
    let mut source = world.open_source("a")?;
    assert!(rt; source.read(&mut [0; 4]).is_err());
    assert!(rt; reads(&mut source, b"abc"));
    let mut sink = world.create_sink("a")?;
    assert!(rt; sink.write_all(b"xyz").is_err());
    world.done_src(source);
    world.done_dst(sink);
    assert!(rt; holds(&world, "a", b"xy"));
    Ok(())
}

// Takes two octets a write, is broken off once, and takes nothing any more after five octets.
#[derive(Drop)]
struct Narrow {
    taken: usize,
    broken: bool,
}

impl Write for Narrow {
    fn write(&mut self, buf: &[u8]) -> std::io::Result<usize> {
        if !self.broken {
            self.broken = true;
            return Err(ErrorKind::Interrupted.into());
        }
        let number = buf.len().min(2).min(5usize.saturating_sub(self.taken));
        self.taken = self.taken.saturating_add(number);
        Ok(number)
    }

    fn flush(&mut self) -> std::io::Result<()> {
        Ok(())
    }
}

#[test]
fn a_stream_that_takes_nothing_any_more_fails(rt: HostRuntime) -> Result<(), Fail> {
    let mut sink = StreamSink::new(Narrow {
        taken: 0,
        broken: false,
    });
    sink.write_all(b"abc")?;
    sink.write_all(b"")?;
    assert!(rt; sink.write_all(b"def").is_err());
    sink.write_all(b"")?;
    Ok(())
}

#[test]
fn a_real_file_is_written_and_read_back(rt: HostRuntime) -> Result<(), Fail> {
    let mut world = RealWorld::new(&rt, rt.alloc());
    let mut sink = world.create_sink("rtt_io_test_file")?;
    sink.write_all(b"one ")?;
    sink.write_all(b"two")?;
    world.done_dst(sink);
    let mut source = world.open_source("rtt_io_test_file")?;
    assert!(rt; reads_all(&mut source, &["one two", ""]));
    world.done_src(source);
    assert!(rt; world.open_source("rtt_io_no_such_file").is_err());
    std::fs::remove_file(&rt, "rtt_io_test_file")?;
    Ok(())
}

// Makes a file with these octets.
fn write_real<W: World>(world: &mut W, name: &str, octets: &[u8]) -> Result<(), Fail> {
    let mut sink = world.create_sink(name)?;
    let written = sink.write_all(octets);
    world.done_dst(sink);
    written?;
    Ok(())
}

#[test]
fn a_real_file_has_its_name_once_it_was_written(rt: HostRuntime) -> Result<(), Fail> {
    let mut world = RealWorld::new(&rt, rt.alloc());
    let mut sink = world.create_sink("rtt_io_new_file")?;
    assert!(rt; !std::fs::exists(&rt, "rtt_io_new_file")?);
    assert!(rt; std::fs::exists(&rt, "rtt_io_new_file.rtt-part 1")?);
    sink.write_all(b"one")?;
    assert!(rt; std::fs::exists(&rt, "rtt_io_new_file")?);
    assert!(rt; !std::fs::exists(&rt, "rtt_io_new_file.rtt-part 1")?);
    world.done_dst(sink);
    std::fs::remove_file(&rt, "rtt_io_new_file")?;
    Ok(())
}

#[test]
fn a_file_beside_takes_a_name_that_is_free(rt: HostRuntime) -> Result<(), Fail> {
    let mut world = RealWorld::new(&rt, rt.alloc());
    write_real(&mut world, "rtt_io_taken.rtt-part 1", b"one")?;
    write_real(&mut world, "rtt_io_taken", b"two")?;
    assert!(rt; std::fs::exists(&rt, "rtt_io_taken.rtt-part 1")?);
    assert!(rt; !std::fs::exists(&rt, "rtt_io_taken.rtt-part 2")?);
    std::fs::remove_file(&rt, "rtt_io_taken.rtt-part 1")?;
    std::fs::remove_file(&rt, "rtt_io_taken")?;
    Ok(())
}

#[test]
fn a_real_file_is_made_once(rt: HostRuntime) -> Result<(), Fail> {
    let mut world = RealWorld::new(&rt, rt.alloc());
    write_real(&mut world, "rtt_io_made_once", b"one")?;
    assert!(rt; world.create_sink("./rtt_io_made_once").is_err());
    let mut source = world.open_source("rtt_io_made_once")?;
    assert!(rt; reads_all(&mut source, &["one", ""]));
    world.done_src(source);
    std::fs::remove_file(&rt, "rtt_io_made_once")?;
    Ok(())
}

// Makes a file with these octets, where a part can be made that takes them first.
fn write_by_part<W: World>(world: &mut W, name: &str, octets: &[u8]) -> Result<(), Fail> {
    let Some(mut part) = world.part(name) else {
        return Ok(());
    };
    part.write_part(octets)?;
    let mut sink = world.create_sink(name)?;
    let given = world.give(part, &mut sink);
    world.done_dst(sink);
    given?;
    Ok(())
}

// A part is made, and let go.
fn makes_part<W: World>(world: &W, name: &str) -> bool {
    world.part(name).is_some()
}

#[test]
fn a_real_file_is_given_what_a_part_took(rt: HostRuntime) -> Result<(), Fail> {
    let mut world = RealWorld::new(&rt, rt.alloc());
    write_by_part(&mut world, "rtt_io_given", b"one")?;
    let mut source = world.open_source("rtt_io_given")?;
    assert!(rt; reads_all(&mut source, &["one", ""]));
    world.done_src(source);
    assert!(rt; world.create_sink("./rtt_io_given").is_err());
    assert!(rt; !std::fs::exists(&rt, "rtt_io_given.rtt-part 1")?);
    assert!(rt; !std::fs::exists(&rt, "rtt_io_given.rtt-part 2")?);
    std::fs::remove_file(&rt, "rtt_io_given")?;
    Ok(())
}

#[test]
fn a_part_that_is_let_go_leaves_nothing(rt: HostRuntime) -> Result<(), Fail> {
    let world = RealWorld::new(&rt, rt.alloc());
    assert!(rt; makes_part(&world, "rtt_io_let_go"));
    assert!(rt; !std::fs::exists(&rt, "rtt_io_let_go.rtt-part 1")?);
    assert!(rt; !std::fs::exists(&rt, "rtt_io_let_go")?);
    assert!(rt; !makes_part(&world, "/dev/null"));
    Ok(())
}

#[test]
fn a_world_in_memory_gives_a_file_what_a_part_took(rt: HostRuntime) -> Result<(), Fail> {
    let mut world = world_of(rt.alloc(), &["a"])?;
    write_by_part(&mut world, "a", b"one")?;
    assert!(rt; holds(&world, "a", b"one"));
    world.fail(FailingCall::Open(Path::from_text(rt.alloc(), "b")?))?;
    assert!(rt; !makes_part(&world, "a"));
    Ok(())
}

#[test]
fn real_forms_over_memory_give_and_take_what_it_holds(rt: HostRuntime) -> Result<(), Fail> {
    let octets: &[u8] = b"abc";
    let mut source = FileSource::new(octets, Path::from_text(rt.alloc(), "a.in")?);
    assert!(rt; reads_all(&mut source, &["abc", ""]));
    let mut sink = FileSink::new(Vec::new(rt.alloc()), Path::from_text(rt.alloc(), "a.out")?);
    sink.write_all(b"one ")?;
    sink.write_all(b"two")?;
    let mut stream = StreamSink::new(Vec::new(rt.alloc()));
    stream.write_all(b"three")?;
    Ok(())
}

#[test]
fn a_sink_takes_parts_and_a_last_piece_in_order(rt: HostRuntime) -> Result<(), Fail> {
    let mut sink = failing_sink(rt.alloc(), 1)?;
    assert!(rt; sink.write_part(b"one ").is_err());
    sink.write_part(b"ne ")?;
    sink.write_part(b"two ")?;
    sink.write_all(b"three")?;
    assert_eq!(rt; sink.taken(), b"one two three".as_slice());
    let mut file = FileSink::new(Vec::new(rt.alloc()), Path::from_text(rt.alloc(), "a.out")?);
    file.write_part(b"one ")?;
    file.write_part(b"two ")?;
    file.write_all(b"three")?;
    let mut stream = StreamSink::new(Vec::new(rt.alloc()));
    stream.write_part(b"one ")?;
    stream.write_all(b"two")?;
    Ok(())
}

// Takes all octets and can store none.
#[derive(Drop)]
struct NeverStored;

impl Write for NeverStored {
    fn write(&mut self, buf: &[u8]) -> std::io::Result<usize> {
        Ok(buf.len())
    }

    fn flush(&mut self) -> std::io::Result<()> {
        Ok(())
    }
}

impl StoredWriter for NeverStored {
    fn store(&self) -> Result<(), Failed> {
        Err(Failed)
    }
}

#[test]
fn parts_are_stored_with_the_last_piece(rt: HostRuntime) -> Result<(), Fail> {
    let mut sink = FileSink::new(NeverStored, Path::from_text(rt.alloc(), "a.out")?);
    sink.write_part(b"one ")?;
    sink.write_part(b"two ")?;
    assert!(rt; sink.write_all(b"three").is_err());
    Ok(())
}

#[test]
fn a_whole_source_is_read_to_its_end_or_one_block_past_the_limit(
    rt: HostRuntime,
) -> Result<(), Fail> {
    let mut source = SteadySource::new(bytes(rt.alloc(), b"abcdef")?);
    source.set_step(2);
    let front = read_whole(rt.alloc(), &mut source, 3)?;
    assert_eq!(rt; front.as_slice(), b"abcd".as_slice());
    let rest = read_whole(rt.alloc(), &mut source, 3)?;
    assert_eq!(rt; rest.as_slice(), b"ef".as_slice());
    Ok(())
}

#[test]
fn a_world_fails_no_call_that_it_was_not_told(rt: HostRuntime) -> Result<(), Fail> {
    let mut world = world_of(rt.alloc(), &["a"])?;
    let mut source = world.open_source("a")?;
    let octets = read_whole(rt.alloc(), &mut source, 100)?;
    world.done_src(source);
    let mut sink = world.create_sink("b")?;
    sink.write_all(octets.as_slice())?;
    world.done_dst(sink);
    assert!(rt; holds(&world, "b", b"abc"));
    let mut failing = world_of(rt.alloc(), &["a"])?;
    failing.fail(FailingCall::Read(Path::from_text(rt.alloc(), "a")?, 1))?;
    let mut source = failing.open_source("a")?;
    let answer = read_whole(rt.alloc(), &mut source, 100);
    failing.done_src(source);
    assert!(rt; matches!(answer, Err(ReadFault::Failed)));
    Ok(())
}
