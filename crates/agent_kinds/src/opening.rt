//! The levels of kinds over one field, without entries.

ghost use Rattle.std.specs.Prelude.{◌≡◌, ◌+◌, All, IfOk, OnOk, map};
ghost use Rattle.nav_base.specs.Counts.{HasRisenAtMost};
ghost use Rattle.nav_ground.specs.Fields.{IsField};
ghost use Rattle.nav_ground.specs.declared.setting.Setting.{Setting};
ghost use Rattle.nav_ground.specs.Grounds.{IsGround};
ghost use Rattle.nav_ground.specs.Tiling.{tile_count};
ghost use Rattle.build_queue.specs.BookState.{IsBook, first_state};
ghost use Rattle.nav_book.specs.Openings.{ground_of};
ghost use Rattle.agent_kinds.specs.Kinds.{AreKinds};
ghost use Rattle.agent_kinds.specs.KindOpenings.{AreKindSettings, first_kinds};

use layer_cut::grounds;
use nav_base::Steps;
use nav_book::Level;
use nav_ground::{Field, Ground, Setting};
use std::alloc::{AllocError, Global};
use std::sync::Arc;
use std::sync::ledger::Ledger;
use tile_build::build_tiles;

/// A level for each setting, in their order. All grounds are made first, over one list of cells for agents of one height and climb.
pub(crate) fn levels_of<L: Ledger>(
    alloc: Global,
    settings: &[Setting],
    field: &Field,
    steps: &mut Steps<L>,
) -> Result<Vec<Level>, AllocError>
    requires settings { AreKindSettings settings.now field.now }
    requires field { IsField field.now }
    ensures state { IfOk result (λ levels. levels.items ≡ first_kinds settings.now field.now) }
    ensures rules { IfOk result (λ levels. AreKinds levels.items) }
{
    let grounds = grounds(alloc, settings, field)?;
    levels_over(alloc, settings, field, grounds, steps)
}

/// The levels of grounds, in order.
fn levels_over<L: Ledger>(
    alloc: Global,
    settings: &[Setting],
    field: &Field,
    grounds: Vec<Ground>,
    steps: &mut Steps<L>,
) -> Result<Vec<Level>, AllocError>
    requires settings { AreKindSettings settings.now field.now }
    requires grounds { grounds.items ≡ map (λ (setting : Setting). ground_of setting field.now) settings.now }
    requires rules { All IsGround grounds.items }
    ensures state { IfOk result (λ levels. levels.items ≡ first_kinds settings.now field.now) }
    ensures rules { IfOk result (λ levels. AreKinds levels.items) }
{
    let _ = field;
    let mut levels = Vec::with_capacity(alloc, settings.len())?;
    for ground in grounds {
        levels.push(level_of(alloc, ground, steps)?)?;
    }
    Ok(levels)
}

/// The level of a ground. It takes one step a tile.
fn level_of<L: Ledger>(
    alloc: Global,
    ground: Ground,
    steps: &mut Steps<L>,
) -> Result<Level, AllocError>
    requires { IsGround ground }
    ensures state { IfOk result (λ level. level ≡ first_state ground) }
    ensures rules { IfOk result IsBook }
    ensures steps { OnOk result (steps.new ≡ steps.old + tile_count ground.setting) }
    ensures most { HasRisenAtMost (tile_count ground.setting) steps.old steps.new }
{
    let tiles = build_tiles(alloc, &ground, &[], steps)?;
    let shared = Arc::new(alloc, ground)?;
    Level::begin(alloc, shared, tiles)
}
