//! The top call: everything that the program promises.

ghost use Rattle.std.specs.Prelude.{◌≡◌, ◌+◌, ◌<◌, List, String};
ghost use Rattle.std.specs.declared.alloc.Global.{Global};
ghost use Rattle.nav_io.specs.Causes.{TookAtMost};
ghost use Rattle.top_call.specs.Inputs.{input_limit};
ghost use Rattle.top_call.specs.Outsides.{outside_of};
ghost use Rattle.top_call.specs.Words.{IsKindForm, IsReadForm};
ghost use Rattle.top_call.specs.Endings.{HasEnded};
ghost use Rattle.top_call.specs.Courses.{HasRun};
ghost use Rattle.top_call.specs.StepCounts.{HasRunStepped};
ghost use Rattle.top_call.specs.TopContract.{ComesAsDue, TellsWhatWasDone};

use crate::answer::{InputAnswer, answer_to};
use crate::made::summarize;
use crate::words::{Command, InputKind, RunTools, Status, form_of};
use nav_base::Steps;
use nav_io::{FreeGate, Gate, ReadRefusal, Sink, Source, read_all, write_all};
use std::alloc::Global;
use std::sync::Wait;
use std::sync::ledger::{Blank, Ledger};
use std::thread::Threads;

/// How many bytes an input may have.
const MOST: usize = 67108864;

/// Runs the program on the words behind its name, and writes one text to the sink: for `play`, `live` and `raster` of the whole input that it reads
/// from the source; for `gen NUMBER SIZE` of the input that these determine, with nothing read.
///
/// For the word `play` the text is a play text of the input: for each line of its script in order what the history and the published
/// mesh answer, then how far the play came. What stands after a question is right in the mesh that is published then: the floors of the free
/// cells of a column; for a path, a corridor of links than which no other walk costs less, with its cost, and a line that is taut in its portals; that
/// no polygon holds the start, exactly where none does, or that one holds the start and none the goal; or that there is no path, exactly where
/// both are held and no walk of links joins the two polygons; for a ray, that no polygon holds the start, or the polygon or the wall at which
/// the straight walk ends. A text that is no input is told by the line of its fault.
///
/// For the word `live` the lanes of the script run in threads, beside workers that build tiles, over one history of requests, and pass the gate
/// at each of their stages. However they run, the text is a live text of the input: the history, then for each lane what its lines were
/// answered, then the counts of a mesh. Every request line stands in the history once, those of a lane in the lane's order, each with the reply
/// that the entries before it leave, and nothing else stands there; the lane prints its entry's number and reply. Each question line names one
/// length K of that history, never less than what the lane's question and `settle` lines before it named, and is answered right, as in a play, in
/// the mesh that is built from scratch for the ground with the obstacles that the first K entries leave: so a path is a cheapest corridor there
/// and a taut line through it, and there is no path exactly where none exists. `settled K` names at least the number of the lane's last entry
/// before it. The last line counts the polygons and links of the mesh with the obstacles that all entries leave. `live` waits for its threads: that
/// it returns is not promised.
///
/// For the word `raster` the input is a triangle text, and the text written is the field text of its triangles: the header's bytes as they were
/// read, a line for each span of the field, and `end`. The spans are exactly those of the clipped triangles: in each column the groups of what
/// the triangles leave there. Where they are more than 2000000, the line `fault too many spans` is written.
///
/// For `gen` the made input is played as one that is read, and the text is the summary of that: what was made, how many bytes and lines the
/// input has, how far the play came, how many path questions were answered in which way, what the paths cost together, and how large
/// the last mesh is.
///
/// The text is made whole before its first byte is written. Refusals go in the order Usage, ReadFault, TooLong, BadText,
/// TooManySpans; WriteFault comes in place of any status whose text could not be written, and OutOfMemory only before the first write.
pub fn navd<R: Threads + Wait + Sync, S: Source, K: Sink, G: Gate + Sync, L: Ledger>(
    rt: &R,
    alloc: Global,
    words: &[String],
    source: &mut S,
    sink: &mut K,
    gate: &G,
    steps: &mut Steps<L>,
) -> Status
    // The status tells what was done: each refusal has its cause, and the sink holds what is due.
    ensures told { TellsWhatWasDone words.now (outside_of (S.left source.old) (S.faults source.old) (K.held sink.old) (K.faults sink.old))
        (outside_of (S.left source.new) (S.faults source.new) (K.held sink.new) (K.faults sink.new)) result }

    // What comes where nothing fails but memory.
    ensures due { ComesAsDue words.now (outside_of (S.left source.old) (S.faults source.old) (K.held sink.old) (K.faults sink.old))
        (outside_of (S.left source.new) (S.faults source.new) (K.held sink.new) (K.faults sink.new)) result }

    // At most the bytes of the longest input and one more are gone from the source, and none where no input is read.
    ensures took { TookAtMost (S.left source.old) (S.left source.new) (input_limit + 1) }
    ensures unread { (¬ IsReadForm words.now) → source.new ≡ source.old }

    // Steps are taken for a play, at most one for each tile and one for each claim of its script that gives a tile; and for a live run, at most
    // two for each tile, since each thread counts what it builds by itself.
    ensures steps { HasRunStepped words.now (S.left source.old) (S.left source.new) steps.old steps.new }
{
    let stage = RunTools { rt, alloc, gate };
    respond(&stage, words, source, sink, steps)
}

/// Does what the words ask for: answers the input that is read, sums up the made one, or tells that the words are in no form.
fn respond<R: Threads + Wait + Sync, S: Source, K: Sink, G: Gate + Sync, L: Ledger>(
    stage: &RunTools<'_, R, G>,
    words: &[String],
    source: &mut S,
    sink: &mut K,
    steps: &mut Steps<L>,
) -> Status
    ensures run { HasRun words.now (outside_of (S.left source.old) (S.faults source.old) (K.held sink.old) (K.faults sink.old))
        (outside_of (S.left source.new) (S.faults source.new) (K.held sink.new) (K.faults sink.new)) result }
    ensures took { TookAtMost (S.left source.old) (S.left source.new) (input_limit + 1) }
    ensures unread { (¬ IsReadForm words.now) → source.new ≡ source.old }
    ensures steps { HasRunStepped words.now (S.left source.old) (S.left source.new) steps.old steps.new }
{
    match form_of(words) {
        Some(Command::Read { kind }) => respond_to_input(stage, kind, source, sink, steps),
        Some(Command::Gen { number, size }) => match summarize(
            stage.rt,
            stage.alloc,
            number,
            size,
            steps,
        ) {
            Ok(text) => finish(sink, text.as_slice(), Status::Ok),
            Err(_) => Status::OutOfMemory,
        },
        None => finish(sink, b"fault usage\n", Status::Usage),
    }
}

/// Reads the whole input from the source, and answers it as one of this kind.
fn respond_to_input<R: Threads + Wait + Sync, S: Source, K: Sink, G: Gate + Sync, L: Ledger>(
    stage: &RunTools<'_, R, G>,
    kind: InputKind,
    source: &mut S,
    sink: &mut K,
    steps: &mut Steps<L>,
) -> Status
    ensures run { (words : List (String Global)) → IsKindForm kind words
        → HasRun words (outside_of (S.left source.old) (S.faults source.old) (K.held sink.old) (K.faults sink.old))
        (outside_of (S.left source.new) (S.faults source.new) (K.held sink.new) (K.faults sink.new)) result }
    ensures took { TookAtMost (S.left source.old) (S.left source.new) (input_limit + 1) }
    ensures steps { (words : List (String Global)) → IsKindForm kind words
        → HasRunStepped words (S.left source.old) (S.left source.new) steps.old steps.new }
{
    let input = match read_all(stage.alloc, source, MOST) {
        Ok(input) => input,
        Err(ReadRefusal::ReadFault) => return Status::ReadFault,
        Err(ReadRefusal::TooLong) => return finish(sink, b"fault too long\n", Status::TooLong),
        Err(ReadRefusal::OutOfMemory) => return Status::OutOfMemory,
    };
    match answer_to(stage, kind, input, steps) {
        InputAnswer::Text(text) => finish(sink, text.as_slice(), Status::Ok),
        InputAnswer::Fault(text) => finish(sink, text.as_slice(), Status::BadText),
        InputAnswer::TooManySpans => finish(sink, b"fault too many spans\n", Status::TooManySpans),
        InputAnswer::OutOfMemory => Status::OutOfMemory,
    }
}

/// Writes the text that is due, and ends with its status or with WriteFault.
fn finish<K: Sink>(sink: &mut K, text: &[u8], status: Status) -> Status
    ensures ended { HasEnded (K.held sink.old) (K.held sink.new) (K.faults sink.old) (K.faults sink.new) text.now status result }
{
    match write_all(sink, text) {
        Ok(()) => status,
        Err(_) => Status::WriteFault,
    }
}

/// `navd` with a counter of its own and a gate at which nobody waits, for callers that count nothing. It promises the same but for the
/// steps: by the status that it ends with, what `navd` tells in a field each.
pub fn run<R: Threads + Wait + Sync, S: Source, K: Sink, L: Ledger>(
    rt: &R,
    alloc: Global,
    words: &[String],
    source: &mut S,
    sink: &mut K,
    blank: Blank,
) -> Status
    requires name { blank.name ≡ L.name }
    requires parts { blank.parts ≡ L.parts }
    requires some { 0 < blank.parts }
    ensures run { HasRun words.now (outside_of (S.left source.old) (S.faults source.old) (K.held sink.old) (K.faults sink.old))
        (outside_of (S.left source.new) (S.faults source.new) (K.held sink.new) (K.faults sink.new)) result }

    // At most the bytes of the longest input and one more are gone from the source, and none where no input is read.
    ensures took { TookAtMost (S.left source.old) (S.left source.new) (input_limit + 1) }
    ensures unread { (¬ IsReadForm words.now) → source.new ≡ source.old }
{
    let stage = RunTools {
        rt,
        alloc,
        gate: &FreeGate,
    };
    let mut steps = Steps::<L>::new(blank);
    respond(&stage, words, source, sink, &mut steps)
}
