//! The obstacles of a registry, told to a host.

ghost use Rattle.std.specs.Prelude.{◌≡◌, map};
ghost use Rattle.nav_handle.specs.Wire.{laid};
ghost use Rattle.registry_handle.specs.Rows.{AreRows};
ghost use Rattle.registry_handle.specs.Solids.{blank};

use crate::handle::NavdRegistry;
use crate::solids::{BLOCK, CYLINDER, DISC, NavdDisc, NavdPrism, NavdSolid, PRISM};
use nav_base::Point;
use nav_ground::{PrismBase, Shape};
use nav_handle::{EMPTY, NavdBlock, NavdCylinder, NavdPoint, OK};
use obstacle_registry::Registered;
use std::alloc::Global;

/// An obstacle: its id, the host's own number, whether it is switched on (1) or off (0), and what it is.
#[repr(C)]
#[derive(Clone, Copy)]
pub struct NavdRow {
    pub id: u64,
    pub user: u64,
    pub enabled: u32,
    pub solid: NavdSolid,
}

/// The corner at a place, or the origin where there is none.
fn corner_told(corners: &[Point], place: usize) -> NavdPoint
    ensures { result ≡ Rattle.registry_handle.specs.Solids.corner_told corners.now place }
{
    match corners.get(place) {
        Some(corner) => NavdPoint {
            x: corner.x,
            z: corner.z,
        },
        None => NavdPoint { x: 0, z: 0 },
    }
}

fn prism_told(base: &PrismBase, y0: u32, y1: u32) -> NavdPrism
    ensures { result ≡ Rattle.registry_handle.specs.Solids.prism_told base.now y0 y1 }
{
    let corners = base.corners.as_slice();
    NavdPrism {
        corners: base.count,
        first: corner_told(corners, 0),
        second: corner_told(corners, 1),
        third: corner_told(corners, 2),
        fourth: corner_told(corners, 3),
        fifth: corner_told(corners, 4),
        sixth: corner_told(corners, 5),
        y0,
        y1,
    }
}

/// A solid of a kind with an area, all of whose numbers are 0.
fn blank(kind: u32, area: u32) -> NavdSolid
    ensures { result ≡ Rattle.registry_handle.specs.Solids.blank kind area }
{
    let none = NavdPoint { x: 0, z: 0 };
    NavdSolid {
        kind,
        area,
        block: NavdBlock {
            x0: 0,
            x1: 0,
            y0: 0,
            y1: 0,
            z0: 0,
            z1: 0,
        },
        cylinder: NavdCylinder {
            cx: 0,
            cz: 0,
            r: 0,
            y0: 0,
            y1: 0,
        },
        prism: NavdPrism {
            corners: 0,
            first: none,
            second: none,
            third: none,
            fourth: none,
            fifth: none,
            sixth: none,
            y0: 0,
            y1: 0,
        },
        disc: NavdDisc {
            x: 0,
            z: 0,
            r: 0,
            y0: 0,
            y1: 0,
        },
    }
}

fn block_told(area: u32, block: NavdBlock) -> NavdSolid
    ensures { result ≡ record (blank 0 area) { block = block } }
{
    NavdSolid {
        block,
        ..blank(BLOCK, area)
    }
}

fn cylinder_told(area: u32, cylinder: NavdCylinder) -> NavdSolid
    ensures { result ≡ record (blank 1 area) { cylinder = cylinder } }
{
    NavdSolid {
        cylinder,
        ..blank(CYLINDER, area)
    }
}

/// A shape as a solid.
fn solid_told(shape: &Shape) -> NavdSolid
    ensures { result ≡ Rattle.registry_handle.specs.Solids.solid_told shape.now }
{
    match *shape {
        Shape::Block {
            x0,
            x1,
            y0,
            y1,
            z0,
            z1,
        } => block_told(
            0,
            NavdBlock {
                x0,
                x1,
                y0,
                y1,
                z0,
                z1,
            },
        ),
        Shape::AreaBlock {
            area,
            x0,
            x1,
            y0,
            y1,
            z0,
            z1,
        } => block_told(
            area,
            NavdBlock {
                x0,
                x1,
                y0,
                y1,
                z0,
                z1,
            },
        ),
        Shape::Cylinder { cx, cz, r, y0, y1 } => {
            cylinder_told(0, NavdCylinder { cx, cz, r, y0, y1 })
        }
        Shape::AreaCylinder {
            area,
            cx,
            cz,
            r,
            y0,
            y1,
        } => cylinder_told(area, NavdCylinder { cx, cz, r, y0, y1 }),
        Shape::Prism { base, area, y0, y1 } => NavdSolid {
            prism: prism_told(&base, y0, y1),
            ..blank(PRISM, area)
        },
        Shape::Disc {
            x,
            z,
            r,
            area,
            y0,
            y1,
        } => NavdSolid {
            disc: NavdDisc { x, z, r, y0, y1 },
            ..blank(DISC, area)
        },
    }
}

fn row_told(row: &Registered) -> NavdRow
    ensures { result ≡ Rattle.registry_handle.specs.Rows.row_told row.now }
{
    NavdRow {
        id: row.id,
        user: row.user,
        enabled: if row.number == 0 { 0 } else { 1 },
        solid: solid_told(&row.shape),
    }
}

/// Lays rows into a room.
fn lay_rows(rows: &[Registered], room: &mut [NavdRow])
    ensures { room.new ≡ laid (map Rattle.registry_handle.specs.Rows.row_told rows.now) room.old }
{
    let count = rows.len().min(room.len());
    for place in 0..count {
        room[place] = row_told(&rows[place]);
    }
}

/// The obstacles of the registry of a handle, by their ids, rising; how many there are is left at `count`.
pub fn tell_rows(
    alloc: Global,
    registry: &mut NavdRegistry,
    rows: &mut [NavdRow],
    count: &mut usize,
) -> u32
    ensures told { AreRows registry.old.registry (count.old, rows.old) (count.new, rows.new) result }
    ensures same { registry.new.registry ≡ registry.old.registry }
{
    let Some(held) = registry.take(alloc) else {
        return EMPTY;
    };
    let there = held.rows();
    *count = there.len();
    lay_rows(there, rows);
    registry.put(held);
    OK
}
