//! The text of a made level. Draws: numbers that look random and are the same on every machine.

ghost use Rattle.std.specs.Prelude.{◌≡◌, ◌*◌, ◌++◌, map, OnOk};
ghost use Rattle.nav_text.specs.Lines.{text_of};
ghost use Rattle.span_text.specs.declared.front.TextForm.TheVariants.{First};
ghost use Rattle.span_text.specs.FieldText.{header_lines, span_text};
ghost use Rattle.nav_gen.specs.Draws.{state_after, next_state, draw};
ghost use Rattle.nav_gen.specs.MadeField.{IsMadeSize, made_setting, made_spans};
ghost use Rattle.nav_gen.specs.MadeText.{made_field_text};

use crate::report::push_line;
use nav_ground::Span;
use span_text::write_span;
use std::alloc::AllocError;
use std::marker::Model;

/// The lines of the setting behind its size.
const SETTING: &[u8] = b"tile 32\nagent 10 4 2\nerror 169\nmesh contours\nlimit 64\n";

/// Appends the text of a level: one draw a column.
pub fn push_field(out: &mut Vec<u8>, draws: &mut Draws, size: u32) -> Result<(), AllocError>
    requires { IsMadeSize size }
    ensures text { OnOk result (out.new.items ≡ out.old.items ++ made_field_text draws.old size) }
    ensures state { OnOk result (draws.new ≡ state_after draws.old (size * size)) }
{
    push_header(out, size)?;
    push_spans(out, draws, size)?;
    out.extend_from_slice(b"end\n")
}

fn push_header(out: &mut Vec<u8>, size: u32) -> Result<(), AllocError>
    ensures { OnOk result (out.new.items ≡ out.old.items ++ text_of (header_lines First (made_setting size))) }
{
    out.extend_from_slice(b"nav 1\n")?;
    push_line(out, b"size", &[size, size])?;
    out.extend_from_slice(SETTING)
}

/// Appends the lines of the spans, row by row.
fn push_spans(out: &mut Vec<u8>, draws: &mut Draws, size: u32) -> Result<(), AllocError>
    requires { IsMadeSize size }
    ensures text { OnOk result (out.new.items ≡ out.old.items ++ text_of (map span_text (made_spans draws.old size))) }
    ensures state { OnOk result (draws.new ≡ state_after draws.old (size * size)) }
{
    for column in 0..size * size {
        let span = made_span(size, column, draws.next());
        write_span(out, &span)?;
    }
    Ok(())
}

/// The span of a column that a draw decides.
fn made_span(size: u32, column: u32, drawn: u32) -> Span
    requires { IsMadeSize size }
    ensures { result ≡ Rattle.nav_gen.specs.MadeField.made_span size column drawn }
{
    let (top, area) = if drawn % 64 == 0 {
        (40, 0)
    } else {
        (10 + drawn / 64 % 2, 63)
    };
    Span {
        x: column % size,
        z: column / size,
        bottom: 0,
        top,
        area,
    }
}

const FACTOR: u64 = 6364136223846793005;

const STEP: u64 = 1442695040888963407;

/// A stream of draws. Contracts see it as its state.
#[derive(Drop)]
pub struct Draws {
    state: u64,
}

impl Model for Draws {
    ghost use Rattle.std.specs.Prelude.{ℕ};

    ghost Value = { ℕ };

    ghost view = { λ a. a.state };
}

impl Draws {
    /// The stream that begins at a number.
    pub fn new(number: u32) -> Self
        ensures { result ≡ number }
    {
        Draws {
            state: u64::from(number),
        }
    }

    /// The next draw, below 2147483648.
    #[tactic(auto, unfolding(crate::specs::Draws::next_state), using(crate::proofs::DrawLaws::one_step))]
    pub fn next(&mut self) -> u32
        ensures value { result ≡ draw self.old 0 }
        ensures state { self.new ≡ next_state self.old }
    {
        self.state = self.state.wrapping_mul(FACTOR).wrapping_add(STEP);
        (self.state / 0x2_0000_0000) as u32
    }
}
