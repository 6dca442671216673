//! The ground of all kinds changed: in all of them or in none.

ghost use Rattle.std.specs.Prelude.{◌≡◌, All, IfOk, OnErr, OnOk};
ghost use Rattle.std.specs.List.{AllZip};
ghost use Rattle.build_queue.specs.BookState.{BookState, IsBook};
ghost use Rattle.build_queue.specs.GroundSteps.{IsAtRest};
ghost use Rattle.live_ground.specs.Changes.{AreSameOutside};
ghost use Rattle.agent_kinds.specs.Firsts.{first_awaited};
ghost use Rattle.agent_kinds.specs.KindGrounds.{AreNextGrounds, AreSameBeyond, IsChangedTo, IsNextOver, after_change};
ghost use Rattle.agent_kinds.specs.Kinds.{AreKinds};
ghost use Rattle.agent_kinds.specs.KindSteps.{publication_by};

use crate::publish::{KindsPublished, publication};
use live_ground::{KeptField, changed_ground, reached_tiles};
use nav_base::Steps;
use nav_book::{Level, NextGround};
use nav_ground::Window;
use std::alloc::{AllocError, Global};
use std::sync::Arc;
use std::sync::ledger::Ledger;

/// The ground of a field that differs from that of a level in the columns of a rectangle alone, with its mesh. The tiles in reach of the rectangle
/// are built, with one step each.
fn next_of<L: Ledger>(
    alloc: Global,
    level: &Level,
    field: &KeptField,
    window: Window,
    steps: &mut Steps<L>,
) -> Result<NextGround, AllocError>
    requires rules { IsBook level.now }
    requires rest { IsAtRest level.now }
    requires field { AreSameOutside window level.now.ground.field field.now }
    ensures { IfOk result (IsNextOver window field.now level.now) }
{
    let old = level.ground();
    let reached = reached_tiles(alloc, &old.setting, window)?;
    let ground = changed_ground(alloc, old, field, window)?;
    let shared = Arc::new(alloc, ground)?;
    level.next_ground(alloc, shared, reached.as_slice(), steps)
}

/// The grounds that come, one a level.
fn next_grounds<L: Ledger>(
    alloc: Global,
    levels: &[Level],
    field: &KeptField,
    window: Window,
    steps: &mut Steps<L>,
) -> Result<Vec<NextGround>, AllocError>
    requires rules { All IsBook levels.now }
    requires rest { All IsAtRest levels.now }
    requires field { All (λ (state : BookState). AreSameOutside window state.ground.field field.now) levels.now }
    ensures { IfOk result (λ nexts. AreNextGrounds window field.now levels.now nexts.items) }
{
    let mut nexts = Vec::with_capacity(alloc, levels.len())?;
    for level in levels {
        let next = next_of(alloc, level, field, window, steps)?;
        nexts.push(next)?;
    }
    Ok(nexts)
}

/// Puts the ground that comes in the place of the one that stands, in each level. It takes no memory.
fn show_grounds(levels: &mut [Level], field: &KeptField, window: Window, nexts: Vec<NextGround>)
    requires kinds { AreKinds levels.old }
    requires rest { All IsAtRest levels.old }
    requires nexts { AreNextGrounds window field.now levels.old nexts.items }
    ensures changed { AllZip (IsChangedTo window field.now) levels.old levels.new }
    ensures rules { AreKinds levels.new }
{
    let _ = field;
    let _ = window;
    let mut nexts = nexts;
    while let Some(next) = nexts.pop() {
        let kind = nexts.len();
        levels[kind].show_ground(next);
    }
}

/// Changes the ground of each level to that of a field that differs from theirs in the columns of a rectangle alone, where all that was aimed at
/// is published. All grounds and meshes are made before one is shown: where memory is refused, nothing has changed.
pub(crate) fn change_grounds<L: Ledger>(
    levels: &mut [Level],
    alloc: Global,
    field: &KeptField,
    window: Window,
    steps: &mut Steps<L>,
) -> Result<KindsPublished, AllocError>
    requires kinds { AreKinds levels.old }
    requires field { All (λ (state : BookState). AreSameOutside window state.ground.field field.now) levels.old }
    ensures answer { IfOk result (λ told. All (λ (state : BookState). told ≡ publication_by (first_awaited levels.old) state) levels.old) }
    ensures state { OnOk result (levels.new ≡ after_change field.now levels.old) }
    ensures differ { AllZip (AreSameBeyond window) levels.old levels.new }
    ensures refused { OnErr result (levels.new ≡ levels.old) }
    ensures rules { AreKinds levels.new }
{
    let answer = publication(levels);
    match answer {
        KindsPublished::Same { .. } => {
            let nexts = next_grounds(alloc, levels, field, window, steps)?;
            show_grounds(levels, field, window, nexts);
            Ok(answer)
        }
        _ => Ok(answer),
    }
}
