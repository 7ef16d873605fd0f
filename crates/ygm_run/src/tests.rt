//! Whole runs over objects in memory: that they succeed with ample memory, and worked examples.
use crate::bad_line_laws::the_first_bad_line;
use crate::ending_laws::only_memory_can_run_out;
use crate::limit_laws::the_limit_of_ranks_is_that_of_a_layout;
use crate::run;
use crate::run_job::{JobFault, JobKind, Ran, Settings, run_job};
use crate::status::{Ended, Status};
use crate::tally_text::{each_line_has_its_row, one_table, order_is_free, text_of_shards};
use crate::verdict_laws::the_verdict_is_the_lowest_bad_line_or_the_text;
use crate::words::UsageKind;
use crate::words_laws::{the_refusal_is_the_first_that_holds, words_that_are_accepted};
use line_input::LineWhy;
use std::alloc::{AllocError, Global};
use std::process::Abort;
use std::sync::Wait;
use std::test::Fail;
use ygm_io::{CalmFiles, CalmSink, MemFiles, MemSink, MemSource};
use ygm_route::{Layout, Scheme};

// What a run over objects in memory ends with.
#[derive(Drop)]
struct Outcome {
    ended: Ended<MemSource>,
    out: MemSink,
    notes: MemSink,
}

// The words as the program gets them.
fn words_of(alloc: Global, texts: &[&str]) -> Result<Vec<String>, AllocError> {
    let mut words = Vec::new(alloc);
    for text in texts {
        words.push(String::from_str(alloc, text)?)?;
    }
    Ok(words)
}

// A run over these files, whose output takes 3 bytes at each call and fails at these.
fn run_into(
    rt: &(impl Wait + AllocGlobal),
    files: &mut MemFiles,
    texts: &[&str],
    fails: &[u64],
) -> Result<Outcome, AllocError> {
    let alloc = rt.alloc();
    let words = words_of(alloc, texts)?;
    let mut out = MemSink::new(alloc, fails, 3)?;
    let mut notes = MemSink::new(alloc, &[], 1000)?;
    let ended = run(rt, alloc, &words, files, &mut out, &mut notes);
    Ok(Outcome { ended, out, notes })
}

// A run over these files, whose output doesn't fail.
fn run_over(
    rt: &(impl Wait + AllocGlobal),
    files: &mut MemFiles,
    texts: &[&str],
) -> Result<Outcome, AllocError> {
    run_into(rt, files, texts, &[])
}

// The status of a run in which this line is too long, and no rank below has a fault.
fn too_long(rank: u32, line: u64) -> Status {
    Status::BadLine {
        rank,
        line,
        why: LineWhy::TooLong,
    }
}

// The text of a run over files that hold these bytes.
fn text_of(
    rt: &(impl Abort + Wait + AllocGlobal),
    contents: &[&[u8]],
    text: &[u8],
) -> Result<(), Fail> {
    let names = ["f0", "f1", "f2"];
    let mut files = MemFiles::new(rt.alloc());
    let mut texts = Vec::new(rt.alloc());
    texts.push("tally")?;
    for (name, bytes) in names.iter().zip(contents) {
        files.add(name, bytes, &[])?;
        texts.push(*name)?;
    }
    let outcome = run_over(rt, &mut files, &texts)?;
    assert_eq!(rt; outcome.ended.status, Status::Done);
    assert_eq!(rt; outcome.ended.sources.len(), contents.len());
    assert_eq!(rt; outcome.out.bytes(), text);
    assert_eq!(rt; outcome.notes.bytes(), b"".as_slice());
    Ok(())
}

#[test]
fn equal_lines_of_two_files_are_counted(rt: HostRuntime) -> Result<(), Fail> {
    text_of(&rt, &[b"b\na\nb\n", b"a\nb"], b"2\ta\n3\tb\n")
}

#[test]
fn empty_files_have_no_text(rt: HostRuntime) -> Result<(), Fail> {
    text_of(&rt, &[b"", b""], b"")
}

#[test]
fn empty_lines_are_lines(rt: HostRuntime) -> Result<(), Fail> {
    text_of(&rt, &[b"\n\nx\n"], b"2\t\n1\tx\n")
}

#[test]
fn a_cr_at_the_end_of_a_line_is_dropped(rt: HostRuntime) -> Result<(), Fail> {
    text_of(&rt, &[b"a\r\na\n\r"], b"1\t\n2\ta\n")
}

#[test]
fn requests_of_three_access_logs_are_counted(rt: HostRuntime) -> Result<(), Fail> {
    text_of(
        &rt,
        &[
            b"GET /\r\nGET /a\r\n",
            b"GET /\r\n",
            b"GET /\r\nPOST /a\r\n",
        ],
        b"3\tGET /\n1\tGET /a\n1\tPOST /a\n",
    )
}

#[test]
fn calm_files_are_counted(rt: HostRuntime) -> Result<(), Fail> {
    let mut files = CalmFiles::new(rt.alloc());
    files.add("f0", b"b\na\nb\n")?;
    files.add("f1", b"a\nb")?;
    let words = words_of(rt.alloc(), &["tally", "f0", "f1"])?;
    let mut out = MemSink::new(rt.alloc(), &[], 3)?;
    let mut notes = CalmSink::new();
    let ended = run(&rt, rt.alloc(), &words, &mut files, &mut out, &mut notes);
    assert_eq!(rt; ended.status, Status::Done);
    assert_eq!(rt; out.bytes(), b"2\ta\n3\tb\n".as_slice());
    Ok(())
}

#[test]
fn a_rank_without_a_file_reads_nothing(rt: HostRuntime) -> Result<(), Fail> {
    let alloc = rt.alloc();
    let settings = Settings {
        kind: JobKind::Tally,
        layout: Layout::new(3, 1)?,
        scheme: Scheme::Direct,
        buffer: 64,
    };
    let sources = vec![in alloc; MemSource::new(alloc, b"b\na\nb\n", &[])?]?;
    let Ran { outcome, sources } = run_job(&rt, alloc, &settings, sources);
    assert_eq!(rt; sources.len(), 1);
    assert_eq!(rt; sources[0].left(), b"".as_slice());
    let shards = outcome.expect(&rt, "it has shards");
    assert_eq!(rt; shards.len(), 3);
    assert_eq!(rt;
        text_of_shards(alloc, &shards)?.as_slice(),
        b"1\ta\n2\tb\n".as_slice()
    );
    Ok(())
}

#[test]
fn a_job_ends_with_the_fault_of_an_input(rt: HostRuntime) -> Result<(), Fail> {
    let alloc = rt.alloc();
    let settings = Settings {
        kind: JobKind::Tally,
        layout: Layout::new(2, 1)?,
        scheme: Scheme::Direct,
        buffer: 64,
    };
    let sources = vec![in alloc; MemSource::new(alloc, b"b\na\nb\n", &[0])?]?;
    let Ran { outcome, sources } = run_job(&rt, alloc, &settings, sources);
    assert_eq!(rt; outcome.err(), Some(JobFault::Read { rank: 0 }));
    assert_eq!(rt; sources[0].left(), b"b\na\nb\n".as_slice());
    Ok(())
}

// The files `f0` and `f1` of the worked run, with these reads of `f1` failing.
fn two_files(alloc: Global, fails: &[u64]) -> Result<MemFiles, AllocError> {
    let mut files = MemFiles::new(alloc);
    files.add("f0", b"b\na\nb\n", &[])?;
    files.add("f1", b"a\nb", fails)?;
    Ok(files)
}

#[test]
fn a_layout_changes_no_text(rt: HostRuntime) -> Result<(), Fail> {
    let mut files = two_files(rt.alloc(), &[])?;
    let words = ["tally", "--ranks", "8", "--cores", "4", "f0", "f1"];
    let outcome = run_over(&rt, &mut files, &words)?;
    assert_eq!(rt; outcome.ended.status, Status::Done);
    assert_eq!(rt; outcome.ended.sources.len(), 2);
    assert_eq!(rt; outcome.out.bytes(), b"2\ta\n3\tb\n".as_slice());
    Ok(())
}

// The worked run has its text by this scheme, over two nodes of two cores, with batches of at most so many bytes.
fn has_text_by(
    rt: &(impl Abort + Wait + AllocGlobal),
    scheme: &str,
    buffer: &str,
) -> Result<(), Fail> {
    let mut files = two_files(rt.alloc(), &[])?;
    let words = [
        "tally", "--ranks", "4", "--cores", "2", "--scheme", scheme, "--buffer", buffer, "f0", "f1",
    ];
    let outcome = run_over(rt, &mut files, &words)?;
    assert_eq!(rt; outcome.out.bytes(), b"2\ta\n3\tb\n".as_slice());
    Ok(())
}

#[test]
fn routes_and_buffers_change_no_text(rt: HostRuntime) -> Result<(), Fail> {
    for scheme in ["none", "nr", "nlnr"] {
        has_text_by(&rt, scheme, "64")?;
        has_text_by(&rt, scheme, "65536")?;
    }
    Ok(())
}

#[test]
fn a_job_without_files_is_refused(rt: HostRuntime) -> Result<(), Fail> {
    let alloc = rt.alloc();
    let outcome = run_over(&rt, &mut two_files(alloc, &[])?, &["tally"])?;
    let kind = UsageKind::NoFile;
    assert_eq!(rt; outcome.ended.status, Status::Usage { kind });
    assert_eq!(rt; outcome.ended.status.number(), 1);
    assert_eq!(rt; outcome.ended.sources.len(), 0);
    assert_eq!(rt; outcome.out.bytes(), b"".as_slice());
    assert_eq!(rt; outcome.notes.bytes(), b"ygm_run: no file\n".as_slice());
    Ok(())
}

#[test]
fn a_read_that_fails_is_reported_with_its_rank(rt: HostRuntime) -> Result<(), Fail> {
    let alloc = rt.alloc();
    let mut files = two_files(alloc, &[0])?;
    let outcome = run_over(&rt, &mut files, &["tally", "f0", "f1"])?;
    assert_eq!(rt; outcome.ended.status, Status::ReadFault { rank: 1 });
    assert_eq!(rt; outcome.ended.status.number(), 3);
    assert_eq!(rt; outcome.ended.sources.len(), 2);
    assert_eq!(rt; outcome.ended.sources[1].faults(), 1);
    assert_eq!(rt; outcome.out.bytes(), b"".as_slice());
    assert_eq!(rt;
        outcome.notes.bytes(),
        b"ygm_run: read failed at rank 1\n".as_slice()
    );
    Ok(())
}

#[test]
fn a_write_that_fails_leaves_the_front_of_the_text(rt: HostRuntime) -> Result<(), Fail> {
    let alloc = rt.alloc();
    let mut files = two_files(alloc, &[])?;
    let outcome = run_into(&rt, &mut files, &["tally", "f0", "f1"], &[1])?;
    assert_eq!(rt; outcome.ended.status, Status::WriteFault);
    assert_eq!(rt; outcome.ended.status.number(), 5);
    assert_eq!(rt; outcome.ended.sources.len(), 2);
    assert_eq!(rt; outcome.out.bytes(), b"2\ta".as_slice());
    assert_eq!(rt;
        outcome.notes.bytes(),
        b"ygm_run: write failed\n".as_slice()
    );
    Ok(())
}

#[test]
fn an_open_that_fails_is_the_last(rt: HostRuntime) -> Result<(), Fail> {
    let alloc = rt.alloc();
    let mut files = two_files(alloc, &[])?;
    files.add("f2", b"c\n", &[])?;
    files.fail_open(1)?;
    let outcome = run_over(&rt, &mut files, &["tally", "f0", "nowhere", "f2"])?;
    assert_eq!(rt; outcome.ended.status, Status::OpenFault { file: 1 });
    assert_eq!(rt; outcome.ended.status.number(), 2);
    assert_eq!(rt; outcome.ended.sources.len(), 1);
    assert_eq!(rt; outcome.ended.sources[0].left(), b"b\na\nb\n".as_slice());
    assert_eq!(rt; outcome.out.bytes(), b"".as_slice());
    assert_eq!(rt;
        outcome.notes.bytes(),
        b"ygm_run: cannot open nowhere\n".as_slice()
    );
    Ok(())
}

#[test]
fn a_line_of_a_million_bytes_and_one_is_bad(rt: HostRuntime) -> Result<(), Fail> {
    let alloc = rt.alloc();
    let mut files = MemFiles::new(alloc);
    files.add("f0", &vec![in alloc; b'x'; 1_000_001]?, &[])?;
    let outcome = run_over(&rt, &mut files, &["tally", "f0"])?;
    assert_eq!(rt; outcome.ended.status, too_long(0, 1));
    assert_eq!(rt; outcome.ended.status.number(), 4);
    Ok(())
}

// A run over three files whose opens of these numbers fail ends at the file of the first, and fails but once.
fn ends_at(rt: &(impl Abort + Wait + AllocGlobal), fails: &[u64], file: u32) -> Result<(), Fail> {
    let mut files = two_files(rt.alloc(), &[])?;
    files.add("f2", b"c\n", &[])?;
    for call in fails {
        files.fail_open(*call)?;
    }
    let outcome = run_over(rt, &mut files, &["tally", "f0", "f1", "f2"])?;
    assert_eq!(rt; outcome.ended.status, Status::OpenFault { file });
    assert_eq!(rt; outcome.ended.sources.len(), file as usize);
    assert_eq!(rt; files.faults(), 1);
    Ok(())
}

#[test]
fn no_open_is_tried_after_the_first_that_fails(rt: HostRuntime) -> Result<(), Fail> {
    ends_at(&rt, &[0, 1, 2], 0)?;
    ends_at(&rt, &[1, 2], 1)
}

// A run over two files of which these reads of the second fail ends so. Its third open is to fail, and none does.
fn opened_once(
    rt: &(impl Abort + Wait + AllocGlobal),
    fails: &[u64],
    status: Status,
) -> Result<(), Fail> {
    let mut files = two_files(rt.alloc(), fails)?;
    files.fail_open(2)?;
    let outcome = run_over(rt, &mut files, &["tally", "f0", "f1"])?;
    assert_eq!(rt; outcome.ended.status, status);
    assert_eq!(rt; outcome.ended.sources.len(), 2);
    assert_eq!(rt; files.faults(), 0);
    Ok(())
}

#[test]
fn each_file_is_opened_once(rt: HostRuntime) -> Result<(), Fail> {
    opened_once(&rt, &[], Status::Done)?;
    opened_once(&rt, &[0], Status::ReadFault { rank: 1 })
}

#[test]
fn no_read_is_tried_behind_a_bad_line(rt: HostRuntime) -> Result<(), Fail> {
    let alloc = rt.alloc();
    let mut bytes = vec![in alloc; b'x'; 1_000_001]?;
    bytes.extend_from_slice(&vec![in alloc; b'\n'; 100_000]?)?;
    let mut files = MemFiles::new(alloc);
    files.add("f0", &bytes, &[16])?;
    let outcome = run_over(&rt, &mut files, &["tally", "f0"])?;
    assert_eq!(rt; outcome.ended.status, too_long(0, 1));
    assert_eq!(rt; outcome.ended.sources.len(), 1);
    assert_eq!(rt; outcome.ended.sources[0].faults(), 0);
    assert_eq!(rt; outcome.ended.sources[0].left().len(), 51_425);
    Ok(())
}

#[test]
fn no_read_is_tried_behind_one_that_failed(rt: HostRuntime) -> Result<(), Fail> {
    let mut files = two_files(rt.alloc(), &[0, 1])?;
    let outcome = run_over(&rt, &mut files, &["tally", "f0", "f1"])?;
    assert_eq!(rt; outcome.ended.status, Status::ReadFault { rank: 1 });
    assert_eq!(rt; outcome.ended.sources.len(), 2);
    assert_eq!(rt; outcome.ended.sources[0].left(), b"".as_slice());
    assert_eq!(rt; outcome.ended.sources[1].faults(), 1);
    assert_eq!(rt; outcome.ended.sources[1].left(), b"a\nb".as_slice());
    Ok(())
}

#[test]
fn the_fault_of_the_lowest_rank_is_reported_and_the_others_read_on(
    rt: HostRuntime,
) -> Result<(), Fail> {
    let alloc = rt.alloc();
    let mut long = Vec::from_slice(alloc, b"a\n")?;
    long.extend_from_slice(&vec![in alloc; b'x'; 1_000_001]?)?;
    let mut files = MemFiles::new(alloc);
    files.add("f0", b"a\n", &[])?;
    files.add("f1", &long, &[])?;
    files.add("f2", b"a\n", &[0])?;
    files.add("f3", b"a\n", &[])?;
    let words = ["tally", "f0", "f1", "f2", "f3"];
    let outcome = run_over(&rt, &mut files, &words)?;
    assert_eq!(rt; outcome.ended.status, too_long(1, 2));
    assert_eq!(rt; outcome.ended.sources.len(), 4);
    assert_eq!(rt; outcome.ended.sources[2].faults(), 1);
    assert_eq!(rt; outcome.ended.sources[3].left(), b"".as_slice());
    assert_eq!(rt; outcome.out.bytes(), b"".as_slice());
    assert_eq!(rt;
        outcome.notes.bytes(),
        b"ygm_run: rank 1 line 2: line too long\n".as_slice()
    );
    Ok(())
}

#[test]
fn notes_that_fail_change_no_status(rt: HostRuntime) -> Result<(), Fail> {
    let alloc = rt.alloc();
    let words = words_of(alloc, &["tally", "f1"])?;
    let mut out = MemSink::new(alloc, &[], 3)?;
    let mut notes = MemSink::new(alloc, &[1], 9)?;
    let mut files = two_files(alloc, &[0])?;
    let ended = run(&rt, alloc, &words, &mut files, &mut out, &mut notes);
    assert_eq!(rt; ended.status, Status::ReadFault { rank: 0 });
    assert_eq!(rt; notes.bytes(), b"ygm_run: ".as_slice());
    Ok(())
}

#[test]
fn the_laws_can_be_cited() {
    each_line_has_its_row();
    one_table();
    only_memory_can_run_out::<MemSource>();
    order_is_free();
    the_first_bad_line();
    the_limit_of_ranks_is_that_of_a_layout();
    the_refusal_is_the_first_that_holds();
    the_verdict_is_the_lowest_bad_line_or_the_text();
    words_that_are_accepted();
}
