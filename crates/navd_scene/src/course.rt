//! The course of a run: what is read, what is due then, and how it ends.

ghost use Rattle.std.specs.Prelude.{◌≡◌, ◌+◌, ◌<◌, ◌≤◌, ◌⊎◌, length, IfOk, IfSome};
ghost use Rattle.std.specs.Io.KnownBytes.{Appends, Keeps};
ghost use Rattle.nav_io.specs.Causes.{Rose, TookMany, TookAtMost, HasMore};
ghost use Rattle.nav_record.specs.FrameTexts.{too_long_text};
ghost use Rattle.top_call.specs.Inputs.{IsInputFor, IsRunnable, input_limit};
ghost use Rattle.top_call.specs.Endings.{HasEnded};
ghost use Rattle.nav_play.specs.Scenes.{IsSceneText};
ghost use Rattle.nav_script.specs.declared.script.Way.TheVariants.{Play};
ghost use Rattle.navd_scene.specs.Drawn.{HasBroken, HasDrawn, HasRun, HasTold, IsLineOf, IsRight, IsSceneUnless};

use nav_base::Steps;
use nav_io::{ReadRefusal, Sink, Source, read_all, write_all};
use nav_play::{PlayStart, scene};
use nav_record::write_fault;
use nav_script::Way;
use nav_text::TextFault;
use std::alloc::{AllocError, Global};
use std::sync::Wait;
use std::sync::ledger::{Blank, Ledger};
use top_call::{Input, InputRefusal, Status, read_input};

/// How many bytes an input may have.
const MOST: usize = 67108864;

/// What is due after an input.
#[derive(Drop)]
pub(crate) enum Due {
    /// A play text of it with the scene behind it.
    Scene(Vec<u8>),
    /// The line of its fault.
    Fault(Vec<u8>),
    OutOfMemory,
}

/// Reads the whole input from the source, plays it, and writes its play text and the scene of the mesh that is published after the last line; or
/// the line of its fault. The text is made whole before its first byte is written. It counts tiles with a counter of its own.
///
/// Refusals go in the order ReadFault, TooLong, BadText; WriteFault comes in place of any status whose text could not be written, and OutOfMemory
/// only before the first write.
pub(crate) fn run<R: Wait, S: Source, K: Sink, L: Ledger>(
    rt: &R,
    alloc: Global,
    source: &mut S,
    sink: &mut K,
    blank: Blank,
) -> Status
    requires name { blank.name ≡ L.name }
    requires parts { blank.parts ≡ L.parts }
    requires some { 0 < blank.parts }
    // The play text of what was read with the scene behind it, whole, to the sink that held what it held.
    ensures ok { result ≡ Status.Ok → HasDrawn (S.left source.old) (S.left source.new) (K.held sink.old) (K.held sink.new) }

    // Each refusal has its cause, and the sink holds what is due.
    ensures bad_text { result ≡ Status.BadText → HasTold (S.left source.old) (S.left source.new) (K.held sink.old) (K.held sink.new) }
    ensures usage { ¬ (result ≡ Status.Usage) }
    ensures read_fault { result ≡ Status.ReadFault
        → Rose (S.faults source.old) (S.faults source.new) × Keeps (K.held sink.old) (K.held sink.new) }
    ensures write_fault { result ≡ Status.WriteFault → Rose (K.faults sink.old) (K.faults sink.new)
        × HasBroken (S.left source.old) (S.left source.new) (K.held sink.old) (K.held sink.new) }
    ensures too_long { result ≡ Status.TooLong
        → TookMany (S.left source.old) (S.left source.new) (input_limit + 1) × Appends (K.held sink.old) (K.held sink.new) too_long_text }
    ensures too_many { ¬ (result ≡ Status.TooManySpans) }
    ensures no_memory { result ≡ Status.OutOfMemory → Keeps (K.held sink.old) (K.held sink.new) }

    // What comes where nothing fails but memory.
    ensures more { HasMore (S.left source.old) input_limit
        → (¬ Rose (S.faults source.old) (S.faults source.new)) → (¬ Rose (K.faults sink.old) (K.faults sink.new))
        → (result ≡ Status.TooLong) ⊎ (result ≡ Status.OutOfMemory) }
    ensures complete { IfSome (S.left source.old) (λ input. IsInputFor Play input → length input ≤ input_limit
        → (¬ Rose (S.faults source.old) (S.faults source.new)) → (¬ Rose (K.faults sink.old) (K.faults sink.new))
        → (result ≡ Status.Ok) ⊎ (result ≡ Status.OutOfMemory)) }
    ensures wrong { IfSome (S.left source.old) (λ input. (¬ IsInputFor Play input) → length input ≤ input_limit
        → (¬ Rose (S.faults source.old) (S.faults source.new)) → (¬ Rose (K.faults sink.old) (K.faults sink.new))
        → (result ≡ Status.BadText) ⊎ (result ≡ Status.OutOfMemory)) }

    // At most the bytes of the longest input and one more are gone from the source.
    ensures took { TookAtMost (S.left source.old) (S.left source.new) (input_limit + 1) }
{
    let mut steps = Steps::<L>::new(blank);
    respond(rt, alloc, source, sink, &mut steps)
}

/// Reads the whole input, and writes what is due after it.
fn respond<R: Wait, S: Source, K: Sink, L: Ledger>(
    rt: &R,
    alloc: Global,
    source: &mut S,
    sink: &mut K,
    steps: &mut Steps<L>,
) -> Status
    ensures run { HasRun (S.left source.old) (S.left source.new) (S.faults source.old) (S.faults source.new)
        (K.held sink.old) (K.held sink.new) (K.faults sink.old) (K.faults sink.new) result }
    ensures took { TookAtMost (S.left source.old) (S.left source.new) (input_limit + 1) }
{
    let input = match read_all(alloc, source, MOST) {
        Ok(input) => input,
        Err(ReadRefusal::ReadFault) => return Status::ReadFault,
        Err(ReadRefusal::TooLong) => return finish(sink, b"fault too long\n", Status::TooLong),
        Err(ReadRefusal::OutOfMemory) => return Status::OutOfMemory,
    };
    match due_for(rt, alloc, input.as_slice(), steps) {
        Due::Scene(text) => finish(sink, text.as_slice(), Status::Ok),
        Due::Fault(text) => finish(sink, text.as_slice(), Status::BadText),
        Due::OutOfMemory => Status::OutOfMemory,
    }
}

/// What is due after an input.
fn due_for<R: Wait, L: Ledger>(rt: &R, alloc: Global, bytes: &[u8], steps: &mut Steps<L>) -> Due
    requires { length bytes.now ≤ input_limit }
    ensures right { IsRight bytes.now result }
    ensures complete { IsInputFor Play bytes.now → IsSceneUnless result }
{
    let input = match read_input(alloc, Way::Play, bytes) {
        Ok(input) => input,
        Err(InputRefusal::Fault(fault)) => return told(alloc, &fault),
        Err(InputRefusal::OutOfMemory) => return Due::OutOfMemory,
    };
    match drawn(rt, alloc, input, steps) {
        Ok(text) => Due::Scene(text),
        Err(_) => Due::OutOfMemory,
    }
}

/// The play text of an input with the scene behind it.
fn drawn<R: Wait, L: Ledger>(
    rt: &R,
    alloc: Global,
    input: Input,
    steps: &mut Steps<L>,
) -> Result<Vec<u8>, AllocError>
    requires runnable { IsRunnable Play input.setting input.field input.script }
    ensures { IfOk result (λ text. IsSceneText input.setting input.field input.script text.items) }
{
    let Input {
        setting,
        field,
        script,
    } = input;
    Ok(scene(rt, alloc, PlayStart { setting, field }, &script, steps)?)
}

/// The line of a fault.
fn told(alloc: Global, fault: &TextFault) -> Due
    ensures { IsLineOf fault.now result }
{
    let mut text = Vec::new(alloc);
    match write_fault(&mut text, fault) {
        Ok(()) => Due::Fault(text),
        Err(_) => Due::OutOfMemory,
    }
}

/// Writes the text that is due, and ends with its status or with WriteFault.
pub(crate) fn finish<K: Sink>(sink: &mut K, text: &[u8], status: Status) -> Status
    ensures { HasEnded (K.held sink.old) (K.held sink.new) (K.faults sink.old) (K.faults sink.new) text.now status result }
{
    match write_all(sink, text) {
        Ok(()) => status,
        Err(_) => Status::WriteFault,
    }
}
