//! The answer to an input: a text of its run, or of the field of its triangles, or the line of its fault. Reads a whole input: a field text and
//! the script text behind it.

ghost use Rattle.std.specs.Prelude.{◌≡◌, ◌≤◌, length, IfOk, Err};
ghost use Rattle.nav_ground.specs.declared.setting.Setting.{Setting};
ghost use Rattle.nav_ground.specs.declared.field.Field.{Field};
ghost use Rattle.nav_script.specs.declared.script.Script.{Script};
ghost use Rattle.nav_text.specs.declared.fault.TextFault.{TextFault};
ghost use Rattle.nav_base.specs.Counts.{HasRisenAtMost};
ghost use Rattle.top_call.specs.Inputs.{IsFault, IsInput, IsInputFor, IsRunnable, IsTextOf, input_limit};
ghost use Rattle.top_call.specs.Readings.{IsReadAs};
ghost use Rattle.top_call.specs.Answers.{IsAnswer, IsLineOf, IsRight, IsTextUnless};
ghost use Rattle.top_call.specs.StepCounts.{HasAnswerStepped, HasStepped, builds_for};
ghost use Rattle.top_call.specs.Triangles.{IsRastered, field_text};

use crate::words::{InputKind, RunTools};
use nav_base::Steps;
use nav_ground::{Field, PackedSpan, Setting};
use nav_io::Gate;
use nav_live::{LiveText, live};
use nav_play::{PlayText, play};
use nav_record::write_fault;
use nav_script::{Script, ScriptRefusal, Way, read_script};
use nav_text::TextFault;
use span_text::{FieldRefusal, read_field, write_spans};
use std::alloc::{AllocError, Global};
use std::sync::Wait;
use std::sync::ledger::Ledger;
use std::thread::Threads;
use tri_raster::{RasterRefusal, TriText, raster, read_triangles};

/// What an input is answered with.
#[derive(Drop)]
pub(crate) enum InputAnswer {
    /// A text of its run, or of the field of its triangles.
    Text(Vec<u8>),
    /// The line of its fault.
    Fault(Vec<u8>),
    /// Its triangles give more than 2000000 spans.
    TooManySpans,
    OutOfMemory,
}

/// Answers an input that is read as one of this kind. The bytes are let go once they are read.
pub(crate) fn answer_to<R: Threads + Wait + Sync, G: Gate + Sync, L: Ledger>(
    stage: &RunTools<'_, R, G>,
    kind: InputKind,
    bytes: Vec<u8>,
    steps: &mut Steps<L>,
) -> InputAnswer
    requires { length bytes.items ≤ input_limit }
    ensures right { IsAnswer kind bytes.items result }
    ensures steps { HasAnswerStepped kind bytes.items steps.old steps.new }
{
    match kind {
        InputKind::Script { way } => answer_to_script(stage, way, bytes, steps),
        InputKind::Triangles => answer_to_triangles(stage.alloc, bytes.as_slice()),
    }
}

/// Reads an input and runs its script this way, or writes the line of its fault. The bytes are let go once they are read.
pub(crate) fn answer_to_script<R: Threads + Wait + Sync, G: Gate + Sync, L: Ledger>(
    stage: &RunTools<'_, R, G>,
    way: Way,
    bytes: Vec<u8>,
    steps: &mut Steps<L>,
) -> InputAnswer
    requires { length bytes.items ≤ input_limit }
    ensures right { IsRight way bytes.items result }
    ensures complete { IsInputFor way bytes.items → IsTextUnless result }
    ensures steps { HasStepped way bytes.items steps.old steps.new }
{
    let input = match read_whole(stage.alloc, way, bytes) {
        Ok(input) => input,
        Err(InputRefusal::Fault(fault)) => return fault_text(stage.alloc, &fault),
        Err(InputRefusal::OutOfMemory) => return InputAnswer::OutOfMemory,
    };
    match text_of(stage, way, input, steps) {
        Ok(text) => InputAnswer::Text(text),
        Err(_) => InputAnswer::OutOfMemory,
    }
}

/// Reads an input, and lets its bytes go.
fn read_whole(alloc: Global, way: Way, bytes: Vec<u8>) -> Result<Input, InputRefusal>
    requires { length bytes.items ≤ input_limit }
    ensures found { IfOk result (λ input. IsInput way bytes.items input.setting input.field input.script) }
    ensures only { (setting : Setting) (field : Field) (script : Script) → IsInput way bytes.items setting field script
        → IsReadAs setting field script result }
    ensures fault { (fault : TextFault) → result ≡ Err (InputRefusal.Fault fault) → IsFault way bytes.items fault }
{
    read_input(alloc, way, bytes.as_slice())
}

/// Runs the script of an input this way over its field.
fn text_of<R: Threads + Wait + Sync, G: Gate + Sync, L: Ledger>(
    stage: &RunTools<'_, R, G>,
    way: Way,
    input: Input,
    steps: &mut Steps<L>,
) -> Result<Vec<u8>, AllocError>
    requires runnable { IsRunnable way input.setting input.field input.script }
    ensures text { IfOk result (λ text. IsTextOf way input.setting input.field input.script text.items) }
    ensures most { HasRisenAtMost (builds_for way input.setting input.field input.script) steps.old steps.new }
{
    let Input {
        setting,
        field,
        script,
    } = input;
    match way {
        Way::Play => {
            let PlayText { bytes, .. } = play(
                stage.rt,
                stage.alloc,
                setting,
                field,
                &script,
                steps,
            )?;
            Ok(bytes)
        }
        Way::Live => {
            let LiveText { bytes } = live(
                stage.rt,
                stage.alloc,
                setting,
                field,
                &script,
                stage.gate,
                steps,
            )?;
            Ok(bytes)
        }
    }
}

/// The line of a fault.
fn fault_text(alloc: Global, fault: &TextFault) -> InputAnswer
    ensures { IsLineOf fault.now result }
{
    let mut text = Vec::new(alloc);
    match write_fault(&mut text, fault) {
        Ok(()) => InputAnswer::Fault(text),
        Err(_) => InputAnswer::OutOfMemory,
    }
}

/// What an input says.
#[derive(Drop)]
pub struct Input {
    pub setting: Setting,
    pub field: Field,
    pub script: Script,
}

/// Why no input was read.
#[derive(Clone, Copy)]
pub enum InputRefusal {
    Fault(TextFault),
    OutOfMemory,
}

/// Reads a field text and the text of a script for this way behind it.
pub fn read_input(alloc: Global, way: Way, bytes: &[u8]) -> Result<Input, InputRefusal>
    requires { length bytes.now ≤ input_limit }
    ensures found { IfOk result (λ input. IsInput way bytes.now input.setting input.field input.script) }
    ensures only { (setting : Setting) (field : Field) (script : Script) → IsInput way bytes.now setting field script
        → IsReadAs setting field script result }
    ensures fault { (fault : TextFault) → result ≡ Err (InputRefusal.Fault fault) → IsFault way bytes.now fault }
{
    let text = match read_field(alloc, bytes) {
        Ok(text) => text,
        Err(FieldRefusal::Fault(fault)) => return Err(InputRefusal::Fault(fault)),
        Err(FieldRefusal::OutOfMemory) => return Err(InputRefusal::OutOfMemory),
    };
    let (_, behind) = bytes.split_at(text.used);
    let script = match read_script(alloc, behind, text.lines + 1, way) {
        Ok(script) => script,
        Err(ScriptRefusal::Fault(fault)) => return Err(InputRefusal::Fault(fault)),
        Err(ScriptRefusal::OutOfMemory) => return Err(InputRefusal::OutOfMemory),
    };
    Ok(Input {
        setting: text.setting,
        field: text.field,
        script,
    })
}

/// How many bytes the line of a span has in most fields.
const SPAN_LINE: usize = 25;

/// Reads a triangle text and writes the text of its field, or the line of its fault.
fn answer_to_triangles(alloc: Global, bytes: &[u8]) -> InputAnswer
    requires { length bytes.now ≤ input_limit }
    ensures { IsRastered bytes.now result }
{
    let text = match read_triangles(alloc, bytes) {
        Ok(text) => text,
        Err(FieldRefusal::Fault(fault)) => return fault_text(alloc, &fault),
        Err(FieldRefusal::OutOfMemory) => return InputAnswer::OutOfMemory,
    };
    let TriText {
        setting,
        header,
        tris,
    } = text;
    let field = match raster(alloc, &setting, tris.as_slice()) {
        Ok(field) => field,
        Err(RasterRefusal::TooManySpans) => return InputAnswer::TooManySpans,
        Err(RasterRefusal::OutOfMemory) => return InputAnswer::OutOfMemory,
    };
    let (front, _) = bytes.split_at(header);
    match spelled(alloc, front, field.spans.as_slice()) {
        Ok(text) => InputAnswer::Text(text),
        Err(_) => InputAnswer::OutOfMemory,
    }
}

/// A header as it was read, the lines of a field's spans, and `end`.
fn spelled(alloc: Global, header: &[u8], spans: &[PackedSpan]) -> Result<Vec<u8>, AllocError>
    requires header { length header.now ≤ input_limit }
    requires spans { length spans.now ≤ 2000000 }
    ensures { IfOk result (λ text. text.items ≡ field_text header.now spans.now) }
{
    let mut text = Vec::with_capacity(alloc, header.len() + SPAN_LINE * spans.len() + 4)?;
    text.extend_from_slice(header)?;
    write_spans(&mut text, spans)?;
    text.extend_from_slice(b"end\n")?;
    Ok(text)
}
