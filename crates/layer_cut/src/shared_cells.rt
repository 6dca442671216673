//! The grounds of several settings over one field.

ghost use Rattle.std.specs.Prelude.{◌≡◌, All, IfOk, IfSome, OnOk, map};
ghost use Rattle.nav_ground.specs.declared.setting.Setting.{Setting};
ghost use Rattle.nav_ground.specs.Cells.{IsCompact};
ghost use Rattle.nav_ground.specs.Fields.{IsField};
ghost use Rattle.nav_ground.specs.Grounds.{IsGround, IsSized};
ghost use Rattle.nav_ground.specs.Layers.{cells_of, layers_of};
ghost use Rattle.nav_ground.specs.Limits.{IsSetting};
ghost use Rattle.layer_cut.specs.SharedCells.{AreCellsOf};

use crate::cut::{cells, layers_over};
use nav_ground::{Field, Ground, Layer, PackedCell, PastField, Setting};
use nav_lists::{Items, Shared};
use std::alloc::{AllocError, Global};

/// The cells of a field for agents of one height and one climb.
#[derive(Drop)]
pub struct AgentCells {
    /// In height units.
    height: u32,
    climb: u32,
    cells: Shared<Items<PackedCell>>,
}

/// The ground of each setting over a field, in order, as `ground` makes it of the setting alone. The cells of the field are made once for all
/// settings whose agents have one height and one climb, and kept until all grounds are made. Only memory can be refused.
pub fn grounds(
    alloc: Global,
    settings: &[Setting],
    field: &Field,
) -> Result<Vec<Ground>, AllocError>
    requires settings { All IsSetting settings.now }
    requires field { IsField field.now }
    requires sized { All (λ (setting : Setting). IsSized setting field.now) settings.now }
    ensures value { IfOk result (λ made. made.items
        ≡ map (λ (setting : Setting). record { setting = setting; field = field.now; layers = layers_of setting field.now }) settings.now) }
    ensures rules { IfOk result (λ made. All IsGround made.items) }
{
    let mut made = Vec::new(alloc);
    let mut grounds = Vec::with_capacity(alloc, settings.len())?;
    for setting in settings {
        let shared = cells_for(alloc, setting, field, &mut made)?;
        grounds.push(ground_over(alloc, *setting, field, &shared)?)?;
    }
    Ok(grounds)
}

/// The cells of a field for a setting's agent: those that were made for an agent of its height and climb, else new ones, which are kept beside those.
fn cells_for(
    alloc: Global,
    setting: &Setting,
    field: &Field,
    made: &mut Vec<AgentCells>,
) -> Result<Shared<Items<PackedCell>>, AllocError>
    requires setting { IsSetting setting.now }
    requires field { IsField field.now }
    requires sized { IsSized setting.now field.now }
    requires made { All (AreCellsOf field.now) made.old.items }
    ensures cells { IfOk result (λ cells. cells ≡ cells_of setting.now field.now) }
    ensures rules { IfOk result IsCompact }
    ensures made { OnOk result (All (AreCellsOf field.now) made.new.items) }
{
    if let Some(found) = made_for(setting, field, made.as_slice())? {
        return Ok(found);
    }
    let compact = cells(alloc, setting, field)?;
    let shared = Shared::new(alloc, compact.cells)?;
    made.push(AgentCells {
        height: setting.agent.height,
        climb: setting.agent.climb,
        cells: shared.share()?,
    })?;
    Ok(shared)
}

/// A further owner of the cells that were made for an agent of the height and the climb of a setting's; none where there are no such.
fn made_for(
    setting: &Setting,
    field: &Field,
    made: &[AgentCells],
) -> Result<Option<Shared<Items<PackedCell>>>, AllocError>
    requires made { All (AreCellsOf field.now) made.now }
    ensures cells { IfOk result (λ found. IfSome found (λ cells. cells ≡ cells_of setting.now field.now)) }
    ensures rules { IfOk result (λ found. IfSome found IsCompact) }
{
    let _ = field;
    for other in made {
        if other.height == setting.agent.height && other.climb == setting.agent.climb {
            return Ok(Some(other.cells.share()?));
        }
    }
    Ok(None)
}

/// The ground of a setting over a field, from the cells of the field.
fn ground_over(
    alloc: Global,
    setting: Setting,
    field: &Field,
    cells: &Shared<Items<PackedCell>>,
) -> Result<Ground, AllocError>
    requires setting { IsSetting setting }
    requires field { IsField field.now }
    requires sized { IsSized setting field.now }
    requires cells { cells.now ≡ cells_of setting field.now }
    requires rules { IsCompact cells.now }
    ensures value { IfOk result (λ made. made ≡ record { setting = setting; field = field.now; layers = layers_of setting field.now }) }
    ensures rules { IfOk result IsGround }
{
    let layers = layers_from(alloc, &setting, field, cells)?;
    Ok(Ground {
        setting,
        field: PastField::of(field),
        layers: Items::from_vec(layers),
    })
}

/// The layers of a setting over a field, from the cells of the field.
fn layers_from(
    alloc: Global,
    setting: &Setting,
    field: &Field,
    cells: &Shared<Items<PackedCell>>,
) -> Result<Vec<Layer>, AllocError>
    requires setting { IsSetting setting.now }
    requires field { IsField field.now }
    requires sized { IsSized setting.now field.now }
    requires cells { cells.now ≡ cells_of setting.now field.now }
    requires rules { IsCompact cells.now }
    ensures { IfOk result (λ layers. layers.items ≡ layers_of setting.now field.now) }
{
    let _ = field;
    layers_over(alloc, setting, cells)
}
