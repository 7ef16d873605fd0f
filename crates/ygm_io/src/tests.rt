//! What no clause says: that calls succeed with ample memory, and what the real system does.
ghost use Rattle.std.specs.Prelude.{◌≡◌, IfOk};

use super::*;
use std::io::{ErrorKind, Read, Write};
use std::test::Fail;
use std::{env, fs, io, process};

#[test]
fn a_source_in_memory_fails_at_its_calls(rt: HostRuntime) -> Result<(), Fail> {
    let mut source = MemSource::new(rt.alloc(), b"abcde", &[1])?;
    let mut piece = [0; 3];
    assert_eq!(rt; source.read(&mut piece), Ok(3));
    assert_eq!(rt; piece, *b"abc");
    assert_eq!(rt; source.read(&mut piece), Err(Failed));
    assert_eq!(rt; source.faults(), 1);
    assert_eq!(rt; source.left(), b"de".as_slice());
    assert_eq!(rt; source.read(&mut piece), Ok(2));
    assert_eq!(rt; piece, *b"dec");
    assert_eq!(rt; source.read(&mut piece), Ok(0));
    Ok(())
}

#[test]
fn a_sink_in_memory_fails_at_its_calls(rt: HostRuntime) -> Result<(), Fail> {
    let mut sink = MemSink::new(rt.alloc(), &[1], 3)?;
    assert_eq!(rt; sink.write(b"abcde"), Ok(3));
    assert_eq!(rt; sink.write(b"de"), Err(Failed));
    assert_eq!(rt; sink.faults(), 1);
    assert_eq!(rt; sink.write(b"f"), Ok(1));
    assert_eq!(rt; sink.bytes(), b"abcf".as_slice());
    Ok(())
}

#[test]
fn files_in_memory_fail_at_their_calls(rt: HostRuntime) -> Result<(), Fail> {
    let mut files = MemFiles::new(rt.alloc());
    files.add("f", b"old", &[])?;
    files.add("f", b"new", &[0])?;
    files.add("g", b"", &[])?;
    files.fail_open(1)?;
    let mut source = files.open_named("f")?;
    assert_eq!(rt; source.left(), b"new".as_slice());
    assert_eq!(rt; source.read(&mut [0; 4]), Err(Failed));
    assert_eq!(rt; source.read(&mut [0; 4]), Ok(3));
    assert!(rt; matches!(files.open_named("f"), Err(OpenFailed::Failed)));
    assert_eq!(rt; files.faults(), 1);
    assert!(rt; matches!(files.open_named("nowhere"), Err(OpenFailed::Failed)));
    assert_eq!(rt; files.faults(), 2);
    assert_eq!(rt; files.open_named("f")?.left(), b"new".as_slice());
    assert_eq!(rt; files.open_named("g")?.left(), b"".as_slice());
    Ok(())
}

#[test]
fn all_is_written_or_the_front(rt: HostRuntime) -> Result<(), Fail> {
    let mut sink = MemSink::new(rt.alloc(), &[], 3)?;
    assert_eq!(rt; write_all(&mut sink, b"abcdefg"), Ok(()));
    assert_eq!(rt; sink.bytes(), b"abcdefg".as_slice());
    let mut sink = MemSink::new(rt.alloc(), &[1], 3)?;
    assert_eq!(rt;
        write_all(&mut sink, b"2\ta\n1\tb\n"),
        Err(WriteFault { written: 3 })
    );
    assert_eq!(rt; sink.bytes(), b"2\ta".as_slice());
    Ok(())
}

// Takes up to half a million bytes at each call, and keeps how many it was offered.
#[derive(Drop)]
struct Offered {
    lengths: Vec<usize>,
}

impl Write for Offered {
    fn write(&mut self, bytes: &[u8]) -> io::Result<usize> {
        self.lengths.push(bytes.len())?;
        Ok(bytes.len().min(500_000))
    }

    fn flush(&mut self) -> io::Result<()> {
        Ok(())
    }
}

#[test]
fn each_write_is_offered_all_that_is_left(rt: HostRuntime) -> Result<(), Fail> {
    let alloc = rt.alloc();
    let text = Vec::from_elem(alloc, b'a', 1_200_000)?;
    let mut offered = Offered {
        lengths: Vec::new(alloc),
    };
    let mut sink = StdSink::new(&mut offered);
    assert_eq!(rt; write_all(&mut sink, &text), Ok(()));
    assert_eq!(rt;
        offered.lengths.as_slice(),
        [1_200_000, 700_000, 200_000].as_slice()
    );
    Ok(())
}

#[test]
fn calm_things_never_fail(rt: HostRuntime) -> Result<(), Fail> {
    let mut files = CalmFiles::new(rt.alloc());
    files.add("f", b"ab")?;
    let mut source = files.open_named("f")?;
    let mut piece = [0; 3];
    assert_eq!(rt; source.read(&mut piece), Ok(2));
    assert_eq!(rt; piece, *b"ab\0");
    assert_eq!(rt; files.open_named("nowhere")?.left(), b"".as_slice());
    assert_eq!(rt; CalmSource::new(rt.alloc(), b"c")?.left(), b"c".as_slice());
    assert_eq!(rt; write_all(&mut CalmSink::new(), b"abc"), Ok(()));
    Ok(())
}

// A read or a write is interrupted at first, and one that isn't moves no byte, once, and then fails.
#[derive(Drop)]
struct Balky {
    turn: u8,
}

impl Balky {
    fn turn(&mut self) -> io::Result<usize>
        ensures { IfOk result (λ count. count ≡ 0) }
    {
        self.turn = self.turn.saturating_add(1);
        match self.turn {
            1 => Err(io::Error::from(ErrorKind::Interrupted)),
            2 => Ok(0),
            _ => Err(io::Error::from(ErrorKind::BrokenPipe)),
        }
    }
}

impl Read for Balky {
    fn read(&mut self, _buf: &mut [u8]) -> io::Result<usize> {
        self.turn()
    }
}

impl Write for Balky {
    fn write(&mut self, _buf: &[u8]) -> io::Result<usize> {
        self.turn()
    }

    fn flush(&mut self) -> io::Result<()> {
        Ok(())
    }
}

#[test]
fn a_source_over_a_reader_counts_its_faults(rt: HostRuntime) -> Result<(), Fail> {
    let mut source = StdSource::new(b"abc".as_slice());
    let mut piece = [0; 2];
    assert_eq!(rt; source.read(&mut piece), Ok(2));
    assert_eq!(rt; piece, *b"ab");
    assert_eq!(rt; source.read(&mut piece), Ok(1));
    assert_eq!(rt; source.read(&mut piece), Ok(0));
    let mut source = StdSource::new(Balky { turn: 0 });
    assert_eq!(rt; source.read(&mut piece), Ok(0));
    assert_eq!(rt; source.faults(), 0);
    assert_eq!(rt; source.read(&mut piece), Err(Failed));
    assert_eq!(rt; source.faults(), 1);
    Ok(())
}

#[test]
fn a_sink_over_a_writer_counts_its_faults(rt: HostRuntime) -> Result<(), Fail> {
    let mut written = Vec::new(rt.alloc());
    let mut sink = StdSink::new(&mut written);
    assert_eq!(rt; write_all(&mut sink, b"abc"), Ok(()));
    assert_eq!(rt; sink.faults(), 0);
    assert_eq!(rt; written.as_slice(), b"abc".as_slice());
    let mut sink = StdSink::new(Balky { turn: 1 });
    assert_eq!(rt; sink.write(b"abc"), Err(Failed));
    assert_eq!(rt; sink.faults(), 1);
    assert_eq!(rt; sink.write(b"abc"), Err(Failed));
    assert_eq!(rt; sink.faults(), 2);
    Ok(())
}

// A write is interrupted at first, the next takes no byte, and each later one takes all.
#[derive(Drop)]
struct Hesitant {
    turn: u8,
}

impl Write for Hesitant {
    fn write(&mut self, bytes: &[u8]) -> io::Result<usize> {
        self.turn = self.turn.saturating_add(1);
        match self.turn {
            1 => Err(io::Error::from(ErrorKind::Interrupted)),
            2 => Ok(0),
            _ => Ok(bytes.len()),
        }
    }

    fn flush(&mut self) -> io::Result<()> {
        Ok(())
    }
}

#[test]
fn a_write_is_tried_again_where_it_is_interrupted_and_not_where_it_takes_no_byte(
    rt: HostRuntime,
) -> Result<(), Fail> {
    let mut sink = StdSink::new(Hesitant { turn: 0 });
    assert_eq!(rt; sink.write(b"abc"), Err(Failed));
    assert_eq!(rt; sink.faults(), 1);
    assert_eq!(rt; sink.write(b"abc"), Ok(3));
    assert_eq!(rt; sink.faults(), 1);
    Ok(())
}

#[test]
fn files_of_the_system_are_read(rt: HostRuntime) -> Result<(), Fail> {
    let name = format!(in rt.alloc(); "ygm_io_test_{}", process::id(rt.process()))?;
    let path = env::temp_dir(&rt)?.join(rt.alloc(), name.as_str())?;
    let text = path.as_path().to_str().ok_or(ErrorKind::InvalidInput)?;
    let mut files = StdFiles::new(&rt);
    assert!(rt; matches!(files.open_named(text), Err(OpenFailed::Failed)));
    assert_eq!(rt; files.faults(), 1);
    fs::write(&rt, text, b"abc".as_slice())?;
    let opened = files.open_named(text);
    fs::remove_file(&rt, text)?;
    let mut source = opened?;
    let mut piece = [0; 4];
    assert_eq!(rt; source.read(&mut piece), Ok(3));
    assert_eq!(rt; piece, *b"abc\0");
    assert_eq!(rt; source.read(&mut piece), Ok(0));
    assert_eq!(rt; files.faults(), 1);
    Ok(())
}
