//! The summary of a made input.

ghost use Rattle.std.specs.Prelude.{◌≡◌, ◌≤◌, length, IfOk};
ghost use Rattle.nav_gen.specs.MadeField.{IsMadeSize};
ghost use Rattle.nav_ground.specs.declared.field.Field.{Field};
ghost use Rattle.nav_ground.specs.declared.setting.Setting.{Setting};
ghost use Rattle.nav_script.specs.declared.script.Script.{Script};
ghost use Rattle.nav_base.specs.Counts.{HasRisenAtMost};
ghost use Rattle.nav_script.specs.declared.script.Way.TheVariants.{Play};
ghost use Rattle.top_call.specs.Inputs.{IsInput, IsInputFor, input_limit};
ghost use Rattle.top_call.specs.Made.{IsMadeSummary, made_builds};

use crate::answer::{Input, read_input};
use nav_base::Steps;
use nav_gen::{line_count, make, summary};
use nav_play::{PlayText, play};
use nav_script::Way;
use std::alloc::{AllocError, Global};
use std::sync::Wait;
use std::sync::ledger::Ledger;

/// Makes the input of a number and a size, plays it as one that was read, and tells what its play came to. Only memory can be refused.
pub(crate) fn summarize<R: Wait, L: Ledger>(
    rt: &R,
    alloc: Global,
    number: u32,
    size: u32,
    steps: &mut Steps<L>,
) -> Result<Vec<u8>, AllocError>
    requires { IsMadeSize size }
    ensures summary { IfOk result (λ text. IsMadeSummary number size text.items) }
    ensures steps { HasRisenAtMost (made_builds number size) steps.old steps.new }
{
    let text = make(alloc, number, size)?;
    let Input {
        setting,
        field,
        script,
    } = read_right(alloc, text.as_slice())?;
    let PlayText { totals, .. } = play(rt, alloc, setting, field, &script, steps)?;
    summary(
        alloc,
        number,
        size,
        text.len() as u32,
        line_count(size),
        &totals,
    )
}

/// Reads a text that is in the grammar for plays, which only memory can refuse.
fn read_right(alloc: Global, bytes: &[u8]) -> Result<Input, AllocError>
    requires input { IsInputFor Play bytes.now }
    requires short { length bytes.now ≤ input_limit }
    ensures found { IfOk result (λ input. IsInput Play bytes.now input.setting input.field input.script) }
    ensures only { (setting : Setting) (field : Field) (script : Script) → IsInput Play bytes.now setting field script
        → IfOk result (λ input. (input.setting ≡ setting) × (input.field ≡ field) × (input.script ≡ script)) }
{
    match read_input(alloc, Way::Play, bytes) {
        Ok(input) => Ok(input),
        Err(_) => Err(AllocError),
    }
}
