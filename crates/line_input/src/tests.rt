ghost use Rattle.std.specs.Prelude.{None};

use crate::{
    Got, LineFault, LineReader, LineWhy, lines_end_at_lf, one_cr_is_dropped,
    the_first_line_that_is_too_long, the_limits_are_these_numbers, turns_return_the_lines_in_order,
};
use std::alloc::Global;
use std::process::Abort;
use std::test::Fail;
use ygm_io::{Failed, Source};

/// More turns than any of these inputs takes.
const TURNS: u32 = 100_000;

/// A source that gives pieces of one size, and whose read of one number, from 1, fails.
#[derive(Drop)]
struct Pieced<'a> {
    rest: &'a [u8],
    size: usize,
    reads: u64,
    failing: u64,
    faults: u64,
}

impl<'a> Pieced<'a> {
    fn new(rest: &'a [u8], size: usize, failing: u64) -> Self {
        Pieced {
            rest,
            size,
            reads: 0,
            failing,
            faults: 0,
        }
    }
}

impl Source for Pieced<'_> {
    ghost left = { λ _. None };

    ghost faults = { λ source. source.faults };

    fn read(&mut self, into: &mut [u8]) -> Result<usize, Failed> {
        self.reads = self.reads.saturating_add(1);
        if self.reads == self.failing {
            self.faults = self.faults.saturating_add(1);
            return Err(Failed);
        }
        let count = self.size.min(into.len()).min(self.rest.len());
        let (piece, rest) = self.rest.split_at(count);
        into[..count].copy_from_slice(piece);
        self.rest = rest;
        Ok(count)
    }
}

/// The lines of a text in pieces of a size, each followed by a bar.
fn barred(alloc: Global, text: &[u8], size: usize) -> Result<Vec<u8>, Fail> {
    let mut source = Pieced::new(text, size, 0);
    let mut reader = LineReader::new(alloc)?;
    let mut lines = Vec::new(alloc);
    for _ in 0..TURNS {
        if reader.done() {
            break;
        }
        if let Got::Line(line) = reader.turn(&mut source)? {
            lines.extend_from_slice(line.as_slice())?;
            lines.push(b'|')?;
        }
    }
    Ok(lines)
}

/// What the turns of a reader come to: the number of lines before the end or before a fault.
fn outcome(reader: &mut LineReader, source: &mut Pieced) -> (u64, Option<LineFault>) {
    for _ in 0..TURNS {
        if reader.done() {
            break;
        }
        if let Err(fault) = reader.turn(source) {
            return (reader.line_number(), Some(fault));
        }
    }
    (reader.line_number(), None)
}

#[test]
fn lines_are_the_same_in_any_pieces(rt: HostRuntime) -> Result<(), Fail> {
    let rows = [
        ("", ""),
        ("\n", "|"),
        ("a\nb", "a|b|"),
        ("b\na\nb\n", "b|a|b|"),
        ("\n\nx\n", "||x|"),
        ("a\r\na\n\r", "a|a||"),
        ("a\r\r\n", "a\r|"),
        ("a\rb\r\nc", "a\rb|c|"),
    ];
    for (text, expected) in rows {
        for size in [1, 2, 3, 70_000] {
            let lines = barred(rt.alloc(), text.as_bytes(), size)?;
            assert_eq!(rt;
                lines.as_slice(),
                expected.as_bytes(),
                "{text:?} in pieces of {size}"
            );
        }
    }
    Ok(())
}

#[test]
fn a_line_has_at_most_a_million_bytes(rt: HostRuntime) -> Result<(), Fail> {
    let mut text = vec![in rt.alloc(); b'x'; 1_000_002]?;
    for size in [3_000, 70_000] {
        for (length, ended, expected) in [
            (1_000_000, true, (1, None)),
            (1_000_000, false, (1, None)),
            (
                1_000_001,
                true,
                (0, Some(LineFault::LineTooLong { line: 1 })),
            ),
            (
                1_000_001,
                false,
                (0, Some(LineFault::LineTooLong { line: 1 })),
            ),
        ] {
            assert!(rt; length < text.len());
            text[length] = b'\n';
            let end = if ended { length + 1 } else { length };
            assert!(rt; end <= text.len());
            let mut source = Pieced::new(&text[..end], size, 0);
            let mut reader = LineReader::new(rt.alloc())?;
            let came = outcome(&mut reader, &mut source);
            assert_eq!(rt; came.0, expected.0, "{length} bytes in pieces of {size}");
            assert_eq!(rt; came.1, expected.1, "{length} bytes in pieces of {size}");
            assert!(rt; reader.done());
            text[length] = b'x';
        }
    }
    Ok(())
}

#[test]
fn lines_before_a_failed_read_are_returned(rt: HostRuntime) -> Result<(), Fail> {
    for (failing, given) in [(1, 0), (2, 1), (3, 2)] {
        let mut source = Pieced::new(b"a\nbc\nd", 3, failing);
        let mut reader = LineReader::new(rt.alloc())?;
        let (lines, fault) = outcome(&mut reader, &mut source);
        assert_eq!(rt; lines, given, "the read {failing} fails");
        assert_eq!(rt;
            fault,
            Some(LineFault::ReadFault),
            "the read {failing} fails"
        );
        assert!(rt; reader.done());
    }
    Ok(())
}

/// Reads a text in pieces of a size, with at most one read in each turn.
fn one_read_a_turn(rt: &(impl Abort + AllocGlobal), text: &[u8], size: usize) -> Result<(), Fail> {
    let mut source = Pieced::new(text, size, 0);
    let mut reader = LineReader::new(rt.alloc())?;
    for _ in 0..TURNS {
        if reader.done() {
            break;
        }
        let before = source.reads;
        reader.turn(&mut source)?;
        assert!(rt;
            source.reads <= before.saturating_add(1),
            "{size} bytes in a piece"
        );
    }
    assert!(rt; reader.done());
    Ok(())
}

#[test]
fn a_turn_reads_at_most_once(rt: HostRuntime) -> Result<(), Fail> {
    let long = vec![in rt.alloc(); b'x'; 70_000]?;
    for size in [1, 2, 3, 70_000] {
        one_read_a_turn(&rt, b"ab\nc", size)?;
        one_read_a_turn(&rt, &long, size)?;
    }
    Ok(())
}

#[test]
fn the_end_is_the_last_result(rt: HostRuntime) -> Result<(), Fail> {
    let mut source = Pieced::new(b"a", 1, 0);
    let mut reader = LineReader::new(rt.alloc())?;
    assert!(rt; !reader.done());
    assert!(rt; matches!(reader.turn(&mut source)?, Got::More));
    assert!(rt; !reader.done());
    assert!(rt; matches!(reader.turn(&mut source)?, Got::Line(_)));
    assert!(rt; !reader.done());
    assert!(rt; matches!(reader.turn(&mut source)?, Got::End));
    assert!(rt; reader.done());
    assert_eq!(rt; reader.line_number(), 1);
    Ok(())
}

/// Lines of these lengths, each of one letter, with an LF after each.
fn lines_of_lengths(alloc: Global, lengths: &[usize]) -> Result<Vec<u8>, Fail> {
    let mut text = Vec::new(alloc);
    for (length, letter) in lengths.iter().zip(b'a'..=b'z') {
        for _ in 0..*length {
            text.push(letter)?;
        }
        text.push(b'\n')?;
    }
    Ok(text)
}

#[test]
fn lines_over_the_end_of_a_piece_are_whole(rt: HostRuntime) -> Result<(), Fail> {
    let text = lines_of_lengths(
        rt.alloc(),
        &[65_500, 70, 65_530, 200, 140_000, 3, 0, 97, 96],
    )?;
    for size in [50, 1_000, 65_536] {
        let mut lines = barred(rt.alloc(), &text, size)?;
        for byte in lines.iter_mut() {
            if *byte == b'|' {
                *byte = b'\n';
            }
        }
        assert!(rt; lines == text, "pieces of {size}");
    }
    Ok(())
}

#[test]
fn the_reason_is_that_the_line_is_too_long(rt: HostRuntime) {
    assert_eq!(rt; LineWhy::TooLong.text(), "line too long");
}

#[test]
fn the_laws_can_be_cited() {
    lines_end_at_lf();
    one_cr_is_dropped();
    the_first_line_that_is_too_long();
    the_limits_are_these_numbers();
    turns_return_the_lines_in_order::<Pieced>();
}
