//! The top call: from words to a text.
ghost use Rattle.std.specs.Prelude.{◌≡◌, ◌⊎◌, ◌<◌, ◌≤◌, ◌^◌, true, false, ℕ, List, [], ◌∷◌, Some, IfErr, OnOk, flat_map, length, map, slice_get, take};
ghost use Rattle.ygm_io.specs.Content.{NothingLeft};
ghost use Rattle.ygm_io.specs.Rising.{Rose};
ghost use Rattle.ygm_route.specs.Layout.{max_ranks};
ghost use Rattle.ygm_run.specs.BadLines.{tally_wrong};
ghost use Rattle.ygm_run.specs.Ending.{Ends, FollowsVerdict, IsNoted, IsWritten, counts, inputs, may_write, opens, words as words_stage, writes};
ghost use Rattle.ygm_run.specs.JobEnds.{status_of};
ghost use Rattle.ygm_run.specs.Inputs.{AreRests};
ghost use Rattle.ygm_run.specs.Job.{AreExposed, OfText};
ghost use Rattle.ygm_run.specs.TallyText.{IsTableOf};
ghost use Rattle.ygm_run.specs.Notes.{FileIsBelow, note_takes_memory, note_text};
ghost use Rattle.ygm_run.specs.Verdict.{tally_verdict};
ghost use Rattle.ygm_run.specs.Words.{CanRun, named, order_of, ranks_in, texts_of};

use crate::note::{OUT_OF_MEMORY, fixed_note, note_of};
use crate::run_job::{JobFault, Ran, Settings, run_job};
use crate::status::{Ended, InputFault, Status};
use crate::tally_text::text_of_shards;
use crate::words::read_words;
use counting_set::Counting;
use std::alloc::Global;
use std::sync::Wait;
use ygm_io::{Files, OpenFailed, Sink, Source, write_all};

impl JobFault {
    // The status of a job that has no shards.
    fn status(self) -> Status
        ensures { result ≡ status_of self }
    {
        match self {
            JobFault::CountFull { rank, at } => Status::CountFull { rank, at },
            JobFault::Read { rank } => Status::ReadFault { rank },
            JobFault::Bad { rank, line, why } => Status::BadLine { rank, line, why },
            JobFault::NoMemory => Status::NoMemory,
        }
    }
}

// Opens the file of each name, up to the first that can't be opened.
fn open_all<F: Files>(
    names: &[String],
    files: &mut F,
    sources: &mut Vec<F::Src>,
) -> Result<(), Status>
    requires few { length names.now ≤ max_ranks }
    requires none { sources.old.items ≡ [] }
    ensures opened { map F.Src.left sources.new.items
        ≡ map (F.content files.old) (take (length sources.new.items) (texts_of names.now)) }
    ensures fresh { (rank : ℕ) (source : F.Src) → slice_get sources.new.items rank ≡ Some source → F.Src.faults source ≡ 0 }
    ensures within { length sources.new.items ≤ length names.now }
    ensures passes { let contents = map (F.content files.old) (texts_of names.now) in
        let stage = opens F.Src.left F.Src.faults contents sources.new.items (F.faults files.old) (F.faults files.new) in
        OnOk result stage.passes }
    ensures cause { let contents = map (F.content files.old) (texts_of names.now) in
        let stage = opens F.Src.left F.Src.faults contents sources.new.items (F.faults files.old) (F.faults files.new) in
        IfErr result (λ status. (status ≡ Status.NoMemory) ⊎ stage.refuses status) }
    ensures content_stands { (name : List ℕ) → F.content files.new name ≡ F.content files.old name }
{
    for (file, name) in names.iter().enumerate() {
        match files.open_named(name.as_str()) {
            Ok(source) => {
                if sources.push(source).is_err() {
                    return Err(Status::NoMemory);
                }
            }
            Err(OpenFailed::Failed) => return Err(Status::OpenFault { file: file as u32 }),
            Err(OpenFailed::NoMemory) => return Err(Status::NoMemory),
        }
    }
    Ok(())
}

/// Writes a text.
pub(crate) fn write_text<O: Sink>(text: &[u8], out: &mut O) -> Status
    ensures ends { Ends (writes (O.faults out.old) (O.faults out.new) ∷ []) result }
    ensures may_write { may_write result ≡ true }
    ensures text { IsWritten result text.now (O.holds out.old) (O.holds out.new) }
{
    match write_all(out, text) {
        Ok(()) => Status::Done,
        Err(_) => Status::WriteFault,
    }
}

// Writes the text of what the ranks keep.
fn finish<O: Sink>(alloc: Global, shards: &[Counting], out: &mut O) -> Status
    ensures ends { Ends (writes (O.faults out.old) (O.faults out.new) ∷ []) result }
    ensures text { (text : List ℕ) → ((table : List ℕ) → IsTableOf (flat_map (λ shard. shard) shards.now) table → table ≡ text)
        → IsWritten result text (O.holds out.old) (O.holds out.new) }
    ensures nothing_written { may_write result ≡ false → out.new ≡ out.old }
{
    match text_of_shards(alloc, shards) {
        Ok(text) => write_text(&text, out),
        Err(_) => Status::NoMemory,
    }
}

// Runs tally over the sources, in the world of the settings, and writes its text. Source i is that of rank i.
fn tally<R: Wait, S: Source, O: Sink>(
    rt: &R,
    alloc: Global,
    settings: &Settings,
    sources: Vec<S>,
    out: &mut O,
) -> Ended<S>
    requires settings { CanRun settings.now (length sources.items) }
    requires fresh { (rank : ℕ) (source : S) → slice_get sources.items rank ≡ Some source → S.faults source ≡ 0 }
    ensures ends { let contents = map S.left sources.items in
        Ends (counts settings.now.layout.ranks contents
        ∷ inputs tally_wrong S.left S.faults contents result.sources.items
        ∷ writes (O.faults out.old) (O.faults out.new)
        ∷ []) result.status }
    ensures text { OfText (map S.left sources.items) (λ text. IsWritten result.status text (O.holds out.old) (O.holds out.new)) }
    ensures nothing_written { may_write result.status ≡ false → out.new ≡ out.old }
    ensures rests { AreRests S.left (map S.left sources.items) result.sources.items }
    ensures all { length result.sources.items ≡ length sources.items }
{
    let Ran { outcome, sources } = run_job(rt, alloc, settings, sources);
    let status = match outcome {
        Ok(shards) => finish(alloc, &shards, out),
        Err(fault) => fault.status(),
    };
    Ended { status, sources }
}

// Opens the files of these names, and writes the text of their lines.
fn run_tally<R: Wait, F: Files, O: Sink>(
    rt: &R,
    alloc: Global,
    settings: &Settings,
    names: &[String],
    files: &mut F,
    out: &mut O,
) -> Ended<F::Src>
    requires { CanRun settings.now (length names.now) }
    ensures ends { let contents = map (F.content files.old) (texts_of names.now) in
        let sources = result.sources.items in
        Ends (opens F.Src.left F.Src.faults contents sources (F.faults files.old) (F.faults files.new)
        ∷ counts settings.now.layout.ranks contents
        ∷ inputs tally_wrong F.Src.left F.Src.faults contents sources
        ∷ writes (O.faults out.old) (O.faults out.new)
        ∷ []) result.status }
    ensures text { OfText (map (F.content files.old) (texts_of names.now)) (λ text.
        IsWritten result.status text (O.holds out.old) (O.holds out.new)) }
    ensures nothing_written { may_write result.status ≡ false → out.new ≡ out.old }
    ensures within { length result.sources.items ≤ length names.now }
    ensures rests { AreRests F.Src.left (map (F.content files.old) (texts_of names.now)) result.sources.items }
    ensures content_stands { (name : List ℕ) → F.content files.new name ≡ F.content files.old name }
{
    let mut sources = Vec::new(alloc);
    if let Err(status) = open_all(names, files, &mut sources) {
        return Ended { status, sources };
    }
    tally(rt, alloc, settings, sources, out)
}

// Writes the note of how the run ended, and returns the status. If the note takes memory and there is none, that is the
// status.
fn report<N: Sink>(alloc: Global, status: Status, names: &[String], notes: &mut N) -> Status
    requires { FileIsBelow (length names.now) status }
    ensures same { (result ≡ status) ⊎ ((result ≡ Status.NoMemory) × (note_takes_memory status ≡ true)) }
    ensures noted { IsNoted N.holds N.faults notes.old notes.new (note_text result (texts_of names.now)) }
{
    if let Some(note) = fixed_note(&status) {
        let _ = write_all(notes, note.as_bytes());
        return status;
    }
    match note_of(alloc, &status, names) {
        Ok(note) => {
            let _ = write_all(notes, note.as_slice());
            status
        }
        Err(_) => {
            let _ = write_all(notes, OUT_OF_MEMORY.as_bytes());
            Status::NoMemory
        }
    }
}

/// Runs the job that the words ask for, over the files that they name. Writes its text to `out`, and a note of
/// how it ended to `notes`. Rank i reads file i, and a rank without a file reads nothing. All ranks run on this thread, turn by turn. The call is
/// done once all ranks have left the job's barrier; that they do isn't promised.
///
/// Returns the sources that were opened, in the order of the files: none after `Usage`, those before the file
/// that failed after `OpenFault`, perhaps not all after `NoMemory`, otherwise all. After a rank's input fails, the
/// other ranks are still read. Nothing is written to `out` unless the status is `Done` or `WriteFault`. A failure
/// of `notes` changes no status. The notes of `Usage`, `WriteFault` and `NoMemory` take no memory.
pub fn run<R: Wait, F: Files, O: Sink, N: Sink>(
    rt: &R,
    alloc: Global,
    words: &[String],
    files: &mut F,
    out: &mut O,
    notes: &mut N,
) -> Ended<F::Src>
    // Why the run ended so: at one of five stages, after it had passed those before it, or because memory ran out.
    // `named` are the files of accepted words and `ranks_in` their ranks; refused words have none.
    ensures ends { let order = order_of (texts_of words.now) in
        let contents = map (F.content files.old) (named order) in
        let sources = result.sources.items in
        Ends (words_stage order sources
        ∷ opens F.Src.left F.Src.faults contents sources (F.faults files.old) (F.faults files.new)
        ∷ counts (ranks_in order) contents
        ∷ inputs tally_wrong F.Src.left F.Src.faults contents sources
        ∷ writes (O.faults out.old) (O.faults out.new)
        ∷ []) result.status }
    // Refused words always end with `Usage`, even where memory is lacking, and leave the files unchanged.
    ensures refused_words { IfErr (order_of (texts_of words.now)) (λ kind.
        (result.status ≡ Status.Usage kind) × (files.new ≡ files.old)) }
    // If the files expose their bytes, these decide the text that is written, all of it or less, and the bad line.
    ensures text { (bytes : List (List ℕ))
        → AreExposed (map (F.content files.old) (named (order_of (texts_of words.now)))) bytes
        → FollowsVerdict (tally_verdict bytes) result.status (O.holds out.old) (O.holds out.new) }
    // Unless the status is `Done` or `WriteFault`, `out` is unchanged: nothing was written, and no write failed.
    ensures nothing_written { may_write result.status ≡ false → out.new ≡ out.old }
    // A run that is done has read each file to its end.
    ensures nothing_left { result.status ≡ Status.Done → (rank : ℕ) (source : F.Src)
        → slice_get result.sources.items rank ≡ Some source → NothingLeft (F.Src.left source) }
    // There are at most as many sources as files, and what remains of each is a suffix of its file.
    ensures sources { let names = named (order_of (texts_of words.now)) in
        (length result.sources.items ≤ length names)
        × AreRests F.Src.left (map (F.content files.old) names) result.sources.items }
    ensures content_stands { (name : List ℕ) → F.content files.new name ≡ F.content files.old name }
    // The status's note was written, whole unless a write of it failed.
    ensures noted { IsNoted N.holds N.faults notes.old notes.new
        (note_text result.status (named (order_of (texts_of words.now)))) }
{
    match read_words(words) {
        Ok(order) => {
            let ended = run_tally(rt, alloc, &order.settings, order.names, files, out);
            Ended {
                status: report(alloc, ended.status, order.names, notes),
                sources: ended.sources,
            }
        }
        Err(kind) => Ended {
            status: report(alloc, Status::Usage { kind }, &[], notes),
            sources: Vec::new(alloc),
        },
    }
}
