//! Faults of texts: what is wrong with a line, and which line it is.
ghost use Rattle.std.specs.Prelude.{◌≡◌};
ghost use Rattle.nav_text.specs.Faults.{kind_number, fault_at};

/// What is wrong with a line. Where several tests fail on one line, the kind is that of the first in the order Unfinished,
/// TooMany, TooManyTriangles or TooManyLines, TooManyJumps, Form or Line, Range, Lane, Climb, Order, Overlap, BeforeAdd.
#[derive(Clone, Copy, PartialEq, Eq, Debug)]
pub enum FaultKind {
    /// A line of the field, or the `script` line, is not of a form that is allowed at its place.
    Form,
    /// A number is outside its limits.
    Range,
    /// A cost or a span does not come after the one before.
    Order,
    /// A span begins below the top of the one before in its column.
    Overlap,
    /// The climb is not below the height.
    Climb,
    /// A line whose first word is `span`, after 2000000 spans.
    TooMany,
    /// The input ends inside a line, or before the `script` line.
    Unfinished,
    /// A line after `script` is of no form that is allowed there.
    Line,
    /// A lane or worker number is not below its count.
    Lane,
    /// A `drop` of more adds than stand before it in its lane.
    BeforeAdd,
    /// More lines after `script` than are allowed.
    TooManyLines,
    /// A line whose first word is `jump`, after 256 `jump` lines.
    TooManyJumps,
    /// A line whose first word is `tri`, after 100000 triangles.
    TooManyTriangles,
}

impl FaultKind {
    /// The kind's number in fault texts.
    pub fn number(self) -> u32
        ensures { result ≡ kind_number self }
    {
        match self {
            FaultKind::Form => 1,
            FaultKind::Range => 2,
            FaultKind::Order => 3,
            FaultKind::Overlap => 4,
            FaultKind::Climb => 5,
            FaultKind::TooMany => 6,
            FaultKind::Unfinished => 7,
            FaultKind::Line => 8,
            FaultKind::Lane => 9,
            FaultKind::BeforeAdd => 10,
            FaultKind::TooManyLines => 11,
            FaultKind::TooManyJumps => 12,
            FaultKind::TooManyTriangles => 13,
        }
    }
}

/// The first fault of a text.
#[derive(Clone, Copy, PartialEq, Eq, Debug)]
pub struct TextFault {
    /// The line that fails, counted from 1; where the input ends too early, the line that should follow.
    pub line: u32,
    /// The number of the kind of fault.
    pub kind: u32,
}

impl TextFault {
    /// The fault of a kind at a line.
    pub fn new(line: u32, kind: FaultKind) -> Self
        ensures { result ≡ fault_at line kind }
    {
        TextFault {
            line,
            kind: kind.number(),
        }
    }
}
