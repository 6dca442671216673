//! Square fields cut by hand: flat but for a few spans over the column (2, 2), so that every layer can be said by its floors.

ghost use Rattle.std.specs.Prelude.{◌≡◌, ◌<◌, ◌≤◌, ◌*◌, true, length, IfOk, IsTrue};
ghost use Rattle.nav_ground.specs.Cells.{IsLayer};
ghost use Rattle.nav_ground.specs.Fields.{IsField};
ghost use Rattle.nav_ground.specs.Grounds.{IsGround, IsSized};
ghost use Rattle.nav_ground.specs.Limits.{IsSetting};
ghost use Rattle.nav_ground.specs.Tiling.{tile_count};
ghost use Rattle.obstacle_mark.specs.Near.{KeepsRadius};

use crate::checks::same;
use crate::rows::are_same;
use crate::rules::{keeps_rules, small};
use layer_cut::{ground, layer, tile_of};
use nav_ground::{
    AREAS, Agent, CellRef, Field, Ground, Layer, MeshKind, PackedCell, Setting, Span, TileNo,
    Window, tile_bounds, tiles,
};
use nav_lists::Items;
use std::alloc::{AllocError, Global};
use std::process::Abort;

/// What stands on or hangs over the floor of the column (2, 2).
#[derive(Clone, Copy)]
enum Over {
    Nothing,
    Step,
    TwoSteps,
    Beam,
    LowBeam,
}

/// A square field with its floor at height 10 and spans over it, the tiles and the agent's radius, whether it is kept from obstacles too,
/// and what the cells are to be: none in so many columns along the edge, one of its own height over the column (2, 2), and one at height
/// 10 over each other column.
#[derive(Clone, Copy)]
struct Case {
    side: u32,
    tile: u32,
    radius: u32,
    clear: bool,
    over: Over,
    edge: u32,
    height: u32,
}

/// Spans over the column (2, 2), which nobody walks on by themselves.
const STEP: Span = Span {
    x: 2,
    z: 2,
    bottom: 10,
    top: 12,
    area: 0,
};

const NEXT_STEP: Span = Span {
    bottom: 12,
    top: 14,
    ..STEP
};

const BEAM: Span = Span {
    bottom: 20,
    top: 22,
    ..STEP
};

const LOW_BEAM: Span = Span {
    bottom: 19,
    top: 22,
    ..STEP
};

fn spans_over(over: Over) -> &'static [Span] {
    match over {
        Over::Nothing => &[],
        Over::Step => &[STEP],
        Over::TwoSteps => &[STEP, NEXT_STEP],
        Over::Beam => &[BEAM],
        Over::LowBeam => &[LOW_BEAM],
    }
}

fn setting_of(case: &Case) -> Setting
    requires side { (1 ≤ case.now.side) × (case.now.side ≤ 16) }
    requires tile { (4 ≤ case.now.tile) × (case.now.tile ≤ 16) }
    requires radius { case.now.radius ≤ 15 }
    requires clear { case.now.clear ≡ true → 2 * case.now.radius ≤ case.now.tile }
    ensures rules { IsSetting result }
    ensures width { result.width ≡ case.now.side }
    ensures depth { result.depth ≡ case.now.side }
{
    Setting {
        width: case.side,
        depth: case.side,
        tile: case.tile,
        agent: Agent {
            height: 10,
            climb: 4,
            radius: case.radius,
        },
        error: 169,
        mesh: MeshKind::Strips,
        limit: 4,
        costs: [1; AREAS],
        clear: case.clear,
    }
}

fn field_of(alloc: Global, case: &Case) -> Result<Field, AllocError>
    requires { (1 ≤ case.now.side) × (case.now.side ≤ 16) }
    ensures width { IfOk result (λ field. field.width ≡ case.now.side) }
    ensures depth { IfOk result (λ field. field.depth ≡ case.now.side) }
{
    let mut spans = Vec::new(alloc);
    for i in 0..case.side * case.side {
        let (x, z) = (i % case.side, i / case.side);
        spans.push(small(&Span {
            x,
            z,
            bottom: 0,
            top: 10,
            area: 63,
        }))?;
        if x == 2 && z == 2 {
            for span in spans_over(case.over) {
                spans.push(small(span))?;
            }
        }
    }
    Ok(Field {
        width: case.side,
        depth: case.side,
        spans: Items::from_vec(spans),
    })
}

/// The height of the cell over a column, 0 for none.
fn floor_wanted(case: &Case, x: u32, z: u32) -> u32 {
    let least = case.edge;
    let end = case.side.saturating_sub(case.edge);
    if x < least || end <= x || z < least || end <= z {
        0
    } else if x == 2 && z == 2 {
        case.height
    } else {
        10
    }
}

fn level_wanted(case: &Case, x: u32, z: u32) -> Option<u32> {
    if floor_wanted(case, x, z) == 0 {
        None
    } else {
        Some(0)
    }
}

fn at_ground(x: u32, z: u32) -> CellRef {
    CellRef { x, z, level: 0 }
}

/// The cell is as wanted.
fn check_cell(rt: &impl Abort, case: &Case, cell: &PackedCell) {
    let cell = cell.get();
    let (x, z) = (cell.at.x, cell.at.z);
    assert!(rt; is_inside(x) && is_inside(z));
    let next = [
        level_wanted(case, x - 1, z),
        level_wanted(case, x, z + 1),
        level_wanted(case, x + 1, z),
        level_wanted(case, x, z - 1),
    ];
    let said = (cell.floor, cell.area, cell.next);
    same(
        rt,
        (cell.at, said),
        (at_ground(x, z), (floor_wanted(case, x, z), 63, next)),
    );
}

/// Whether a column is not the first, and not past the last that a field can have.
fn is_inside(column: u32) -> bool
    ensures { IsTrue result → (0 < column) × (column < 1024) }
{
    0 < column && column < 1024
}

/// How many columns have a cell.
fn cells_wanted(case: &Case) -> usize
    requires { case.now.side ≤ 16 }
{
    (0..case.side * 16)
        .filter(|i| floor_wanted(case, *i / 16, *i % 16) > 0)
        .count()
}

fn cells_in(layers: &[Layer]) -> usize {
    let mut cells = 0usize;
    for layer in layers {
        cells = cells.saturating_add(layer.cells.get().len());
    }
    cells
}

/// Whether a cell lies in a tile.
fn is_in(setting: &Setting, tile: TileNo, cell: &PackedCell) -> bool
    requires { IsSetting setting.now }
{
    let CellRef { x, z, level: _ } = cell.at();
    x < setting.width && z < setting.depth && tile_of(setting, x, z) == tile
}

/// The cells of a tile are as wanted, and lie in it.
fn check_cells(rt: &impl Abort, case: &Case, setting: &Setting, tile: TileNo, cells: &[PackedCell])
    requires { IsSetting setting.now }
{
    for cell in cells {
        check_cell(rt, case, cell);
        assert!(rt; is_in(setting, tile, cell));
    }
}

/// How many columns agents keep from obstacles.
fn margin_wanted(case: &Case) -> u32 {
    if case.clear { case.radius } else { 0 }
}

/// Whether a number lies between two others, or past them by a margin at most.
fn is_beside(least: i32, most: i32, margin: u32, number: u32) -> bool {
    let margin = i64::from(margin);
    let number = i64::from(number);
    i64::from(least) <= number + margin && number <= i64::from(most) + margin
}

/// Whether there is a wide cell over a column for a tile of these columns: one that stands there before erosion, so near the tile.
fn is_wide_cell(case: &Case, window: &Window, x: u32, z: u32) -> bool {
    let margin = margin_wanted(case);
    case.clear
        && floor_wanted(&Case { edge: 1, ..*case }, x, z) > 0
        && is_beside(window.x0, window.x1, margin, x)
        && is_beside(window.z0, window.z1, margin, z)
}

/// The places of the wide cells of a tile of these columns.
fn wide_wanted(alloc: Global, case: &Case, window: &Window) -> Result<Vec<CellRef>, AllocError> {
    let mut places = Vec::new(alloc);
    for i in 0..256 {
        let (x, z) = (i % 16, i / 16);
        if is_wide_cell(case, window, x, z) {
            places.push(at_ground(x, z))?;
        }
    }
    Ok(places)
}

/// The radius and the wide cells of a layer are as wanted.
fn check_wide(
    rt: &impl Abort,
    case: &Case,
    layer: &Layer,
    wide: &[PackedCell],
    places: &[CellRef],
) {
    same(rt, layer.radius, margin_wanted(case));
    same(rt, wide.len(), places.len());
    for (cell, place) in wide.iter().zip(places.iter()) {
        same(rt, cell.at(), *place);
        check_cell(rt, &Case { edge: 1, ..*case }, cell);
    }
}

/// The layer of each tile alone, from a part of the field, is the one that is there.
fn check_alone(
    rt: &impl Abort,
    alloc: Global,
    setting: &Setting,
    field: &Field,
    layers: &[Layer],
) -> Result<(), AllocError>
    requires setting { IsSetting setting.now }
    requires field { IsField field.now }
    requires sized { IsSized setting.now field.now }
    requires each { length layers.now ≡ tile_count setting.now }
{
    for tile in 0..tiles(setting) {
        let alone = layer(alloc, field, setting, tile)?;
        assert!(rt; is_same_layer(&alone, &layers[tile as usize]));
    }
    Ok(())
}

/// Whether two layers are the same.
fn is_same_layer(alone: &Layer, there: &Layer) -> bool {
    alone.tile == there.tile
        && alone.radius == there.radius
        && are_same(alone.cells.get().as_slice(), there.cells.get().as_slice())
        && alone.wide.is(&there.wide)
}

/// There is a layer for each tile, as wanted.
fn check_layers(
    rt: &impl Abort,
    alloc: Global,
    case: &Case,
    ground: &Ground,
) -> Result<(), AllocError>
    requires { IsGround ground.now }
{
    let setting = &ground.setting;
    let layers = ground.layers.as_slice();
    assert!(rt; layers.len() == tiles(setting) as usize);
    for tile in 0..tiles(setting) {
        let there = &layers[tile as usize];
        assert!(rt; there.tile == tile);
        check_cells(rt, case, setting, tile, there.cells.get().as_slice());
        let wanted = wide_wanted(alloc, case, &tile_bounds(setting, tile))?;
        let wide = there.wide.all(alloc)?;
        check_wide(rt, case, there, wide.as_slice(), wanted.as_slice());
    }
    Ok(())
}

/// The one layer of a flat field of 13 columns a side, whose wide cells stand over the inner 11 by 11 columns.
pub(crate) fn flat_layer(rt: &impl Abort, alloc: Global) -> Result<Layer, AllocError>
    ensures { IfOk result IsLayer }
{
    let case = Case {
        side: 13,
        tile: 16,
        clear: true,
        ..FLAT
    };
    let field = field_of(alloc, &case)?;
    let setting = setting_of(&case);
    assert!(rt; keeps_rules(&field) && 0 < tiles(&setting));
    let layer = layer(alloc, &field, &setting, 0)?;
    Ok(layer)
}

/// The one layer of a flat field of 16 columns a side where agents keep a radius of 1, whose cells stand over the inner 12 by 12 columns.
pub(crate) fn clear_layer(rt: &impl Abort, alloc: Global) -> Result<Layer, AllocError>
    ensures rules { IfOk result IsLayer }
    ensures kept { IfOk result KeepsRadius }
{
    let case = Case {
        side: 16,
        tile: 16,
        radius: 1,
        clear: true,
        ..FLAT
    };
    let field = field_of(alloc, &case)?;
    let setting = setting_of(&case);
    assert!(rt; keeps_rules(&field) && 0 < tiles(&setting));
    let layer = layer(alloc, &field, &setting, 0)?;
    Ok(layer)
}

/// The ground that a case is about.
fn ground_of(rt: &impl Abort, alloc: Global, case: &Case) -> Result<Ground, AllocError>
    requires side { (1 ≤ case.now.side) × (case.now.side ≤ 16) }
    requires tile { (4 ≤ case.now.tile) × (case.now.tile ≤ 16) }
    requires radius { case.now.radius ≤ 15 }
    requires clear { case.now.clear ≡ true → 2 * case.now.radius ≤ case.now.tile }
    ensures { IfOk result IsGround }
{
    let field = field_of(alloc, case)?;
    assert!(rt; keeps_rules(&field));
    ground(alloc, setting_of(case), field)
}

fn check(rt: &impl Abort, alloc: Global, case: &Case) -> Result<(), AllocError>
    requires side { (1 ≤ case.now.side) × (case.now.side ≤ 16) }
    requires tile { (4 ≤ case.now.tile) × (case.now.tile ≤ 16) }
    requires radius { case.now.radius ≤ 15 }
    requires clear { case.now.clear ≡ true → 2 * case.now.radius ≤ case.now.tile }
{
    let ground = ground_of(rt, alloc, case)?;
    same(rt, cells_in(ground.layers.as_slice()), cells_wanted(case));
    check_layers(rt, alloc, case, &ground)?;
    check_parts(rt, alloc, case, ground.layers.as_slice())
}

/// Each layer is also had from a part of the field.
fn check_parts(
    rt: &impl Abort,
    alloc: Global,
    case: &Case,
    layers: &[Layer],
) -> Result<(), AllocError>
    requires side { (1 ≤ case.now.side) × (case.now.side ≤ 16) }
    requires tile { (4 ≤ case.now.tile) × (case.now.tile ≤ 16) }
    requires radius { case.now.radius ≤ 15 }
    requires clear { case.now.clear ≡ true → 2 * case.now.radius ≤ case.now.tile }
{
    let field = field_of(alloc, case)?;
    let setting = setting_of(case);
    assert!(rt; keeps_rules(&field) && layers.len() == tiles(&setting) as usize);
    check_alone(rt, alloc, &setting, &field, layers)
}

const FLAT: Case = Case {
    side: 6,
    tile: 6,
    radius: 0,
    clear: false,
    over: Over::Nothing,
    edge: 1,
    height: 10,
};

static CASES: [Case; 10] = [
    // Four tiles; cells beside a border name those across it.
    Case {
        side: 8,
        tile: 4,
        ..FLAT
    },
    // A low step takes the area of the floor under it, and one on top of it does not.
    Case {
        over: Over::Step,
        height: 12,
        ..FLAT
    },
    Case {
        over: Over::TwoSteps,
        height: 0,
        ..FLAT
    },
    // The agent fits under a beam of its own height, and not under one that is lower.
    Case {
        over: Over::Beam,
        ..FLAT
    },
    Case {
        over: Over::LowBeam,
        height: 0,
        ..FLAT
    },
    // The ring of the edge has no cells; the cells beside it are boundary cells, and their neighbours are nearer than two cells.
    Case {
        side: 10,
        tile: 10,
        radius: 2,
        edge: 3,
        ..FLAT
    },
    // Sixteen tiles, each from a part of the field.
    Case {
        side: 16,
        tile: 4,
        radius: 1,
        edge: 2,
        ..FLAT
    },
    // Wide cells of tiles that are just wide enough, of tiles that the edge cuts, and with no radius.
    Case {
        side: 16,
        tile: 4,
        radius: 2,
        clear: true,
        edge: 3,
        ..FLAT
    },
    Case {
        side: 14,
        tile: 6,
        radius: 2,
        clear: true,
        edge: 3,
        ..FLAT
    },
    Case {
        side: 8,
        tile: 4,
        clear: true,
        ..FLAT
    },
];

/// Whether a case is small enough.
fn is_small(case: &Case) -> bool
    ensures side { IsTrue result → (1 ≤ case.now.side) × (case.now.side ≤ 16) }
    ensures tile { IsTrue result → (4 ≤ case.now.tile) × (case.now.tile ≤ 16) }
    ensures radius { IsTrue result → case.now.radius ≤ 15 }
    ensures clear { IsTrue result → case.now.clear ≡ true → 2 * case.now.radius ≤ case.now.tile }
{
    1 <= case.side
        && case.side <= 16
        && 4 <= case.tile
        && case.tile <= 16
        && case.radius <= 15
        && is_wide(case)
}

/// Whether the tiles are wide enough.
fn is_wide(case: &Case) -> bool
    requires { case.now.radius ≤ 15 }
    ensures { IsTrue result → case.now.clear ≡ true → 2 * case.now.radius ≤ case.now.tile }
{
    !case.clear || 2 * case.radius <= case.tile
}

fn check_all(rt: &impl Abort, alloc: Global, cases: &[Case]) -> Result<(), AllocError> {
    for case in cases {
        assert!(rt; is_small(case));
        check(rt, alloc, case)?;
    }
    Ok(())
}

#[test]
fn cuts_by_hand(rt: HostRuntime) -> Result<(), AllocError> {
    check_all(&rt, rt.alloc(), &CASES)
}
