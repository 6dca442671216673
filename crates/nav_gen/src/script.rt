//! The text of a made script.
ghost use Rattle.std.specs.Prelude.{◌≡◌, ◌++◌, map, OnOk};
ghost use Rattle.nav_text.specs.Lines.{ended, text_of};
ghost use Rattle.nav_script.specs.declared.script.Line.TheVariants.{Add, Ask};
ghost use Rattle.nav_script.specs.Spelling.{line_of};
ghost use Rattle.nav_gen.specs.Draws.{state_after};
ghost use Rattle.nav_gen.specs.MadeField.{IsMadeSize};
ghost use Rattle.nav_gen.specs.MadeScript.{made_shape, made_question, made_drop, made_builds, made_round, made_rounds};

use crate::field::Draws;
use crate::report::push_line;
use std::alloc::AllocError;

/// How many rounds there are.
const ROUNDS: u32 = 64;
/// How many tiles a round builds at most.
const BUILDS: u32 = 8;
/// How many rounds an obstacle stays.
const STAYS: u32 = 8;

/// Appends the lines of the rounds.
pub fn push_rounds(out: &mut Vec<u8>, draws: &mut Draws, size: u32) -> Result<(), AllocError>
    requires { IsMadeSize size }
    ensures { OnOk result (out.new.items ≡ out.old.items ++ text_of (map line_of (made_rounds draws.old size))) }
{
    for before in 0..ROUNDS {
        push_round(out, draws, size, before)?;
    }
    Ok(())
}

/// Appends the lines of the round with so many rounds before it: seven draws.
fn push_round(
    out: &mut Vec<u8>,
    draws: &mut Draws,
    size: u32,
    before: u32,
) -> Result<(), AllocError>
    requires { IsMadeSize size }
    ensures text { OnOk result (out.new.items ≡ out.old.items ++ text_of (map line_of (made_round draws.old size before))) }
    ensures state { OnOk result (draws.new ≡ state_after draws.old 7) }
{
    push_add(out, draws, size)?;
    push_drop(out, before)?;
    push_builds(out)?;
    push_path(out, draws, size)
}

/// Appends the line of a new obstacle: three draws.
fn push_add(out: &mut Vec<u8>, draws: &mut Draws, size: u32) -> Result<(), AllocError>
    requires { IsMadeSize size }
    ensures text { OnOk result (out.new.items ≡ out.old.items ++ ended (line_of (Add (made_shape draws.old size)))) }
    ensures state { OnOk result (draws.new ≡ state_after draws.old 3) }
{
    let cx = draws.next() % (2 * size + 1);
    let cz = draws.next() % (2 * size + 1);
    let r = draws.next() % 8;
    push_line(out, b"add cylinder", &[cx, cz, r, 0, 100])
}

/// Appends the line that takes the oldest obstacle away, where it has stayed long enough.
fn push_drop(out: &mut Vec<u8>, before: u32) -> Result<(), AllocError>
    ensures { OnOk result (out.new.items ≡ out.old.items ++ text_of (map line_of (made_drop before))) }
{
    if before < STAYS {
        return Ok(());
    }
    push_line(out, b"drop", &[before - STAYS + 1])
}

/// Appends the lines that have the changed tiles built and published.
fn push_builds(out: &mut Vec<u8>) -> Result<(), AllocError>
    ensures { OnOk result (out.new.items ≡ out.old.items ++ text_of (map line_of made_builds)) }
{
    out.extend_from_slice(b"aim\n")?;
    for _ in 0..BUILDS {
        out.extend_from_slice(b"claim 0\nsubmit 0\n")?;
    }
    out.extend_from_slice(b"publish\n")
}

/// Appends the line of a path from one point to another: four draws.
fn push_path(out: &mut Vec<u8>, draws: &mut Draws, size: u32) -> Result<(), AllocError>
    requires { IsMadeSize size }
    ensures text { OnOk result (out.new.items ≡ out.old.items ++ ended (line_of (Ask (made_question draws.old size)))) }
    ensures state { OnOk result (draws.new ≡ state_after draws.old 4) }
{
    let x = draws.next() % (16 * size);
    let z = draws.next() % (16 * size);
    let to_x = draws.next() % (16 * size);
    let to_z = draws.next() % (16 * size);
    push_line(out, b"path", &[x, z, 10, to_x, to_z, 10])
}
