//! Floods through a filter, over rows of which the third is water that costs 5.

ghost use Rattle.std.specs.Prelude.{◌≡◌, ◌<◌, None, IsTrue};
ghost use Rattle.nav_ground.specs.Limits.{IsSetting};
ghost use Rattle.mesh_types.specs.Soundness.{IsSound};
ghost use Rattle.path_queries.specs.Floods.{CanFlood};

use crate::meshes::{all_hold, at, dear_water, has_coordinates, mesh, point};
use mesh_types::Mesh;
use nav_base::Steps;
use path_queries::{Filter, FloodAnswer, FloodQuery, Flooded, flood};
use std::alloc::Global;
use std::marker::Brand;
use std::sync::ledger::{Blank, Ledger};

/// A polygon, what a way to it costs, and the place in the list of the one before it.
pub(crate) type Entry = (u32, u64, usize);

/// From where, which areas are open, up to which cost, and the polygons that are wanted; none where no polygon holds the place.
type Row = ((i32, i32), u64, u64, &'static [Entry]);

const DRY: u64 = 0xfffffffffffffffb;

static ROWS: [Row; 5] = [
    ((72, 72), u64::MAX, 96, &[(3, 0, 0), (2, 80, 0), (1, 96, 1)]),
    ((72, 72), u64::MAX, 79, &[(3, 0, 0)]),
    ((72, 72), DRY, 1000, &[(3, 0, 0)]),
    // From the water the two neighbours are 16 away.
    ((72, 60), DRY, 15, &[(2, 0, 0)]),
    ((0, 0), u64::MAX, 96, &[]),
];

pub(crate) fn can_flood(query: &FloodQuery) -> bool
    requires { query.now.filter.costs ≡ None }
    ensures { IsTrue result → CanFlood query.now }
{
    has_coordinates(query.at)
}

fn is_entry(entry: &Flooded, wanted: Entry) -> bool {
    entry.at == at(wanted.0) && entry.cost == wanted.1 && entry.via == wanted.2
}

fn are_entries(list: &[Flooded], wanted: &[Entry]) -> bool {
    if list.len() != wanted.len() {
        return false;
    }
    for (entry, row) in list.iter().zip(wanted) {
        if !is_entry(entry, *row) {
            return false;
        }
    }
    true
}

pub(crate) fn is_wanted(answer: &FloodAnswer, wanted: &[Entry]) -> bool {
    match answer {
        FloodAnswer::Flooded(list) => !wanted.is_empty() && are_entries(list.as_slice(), wanted),
        FloodAnswer::NoStart => wanted.is_empty(),
    }
}

fn holds(alloc: Global, mesh: &Mesh, row: Row) -> bool
    requires sound { IsSound mesh.now }
    requires setting { IsSetting mesh.now.setting }
{
    let query = FloodQuery {
        at: point(row.0),
        y: 10,
        filter: Filter {
            areas: row.1,
            costs: None,
        },
        most_cost: row.2,
    };
    if !can_flood(&query) {
        return false;
    }
    match flood(alloc, mesh, &query) {
        Ok(answer) => is_wanted(&answer, row.3),
        Err(_) => false,
    }
}

fn wrong_row(alloc: Global, mesh: &Mesh, rows: &[Row]) -> Option<usize>
    requires sound { IsSound mesh.now }
    requires setting { IsSetting mesh.now.setting }
{
    for row in 0..rows.len() {
        if !holds(alloc, mesh, rows[row]) {
            return Some(row);
        }
    }
    None
}

/// A row that is wrong; 99 where there is no memory.
fn wrong<L: Ledger>(alloc: Global, rows: &[Row], blank: Blank) -> Option<usize>
    requires name { blank.name ≡ L.name }
    requires parts { blank.parts ≡ L.parts }
    requires some { 0 < blank.parts }
{
    let mut steps = Steps::<L>::new(blank);
    match mesh(alloc, dear_water(), &mut steps) {
        Ok(mesh) => wrong_row(alloc, &mesh, rows),
        Err(_) => Some(99),
    }
}

#[test]
fn floods_rows(rt: HostRuntime) {
    let found = wrong::<Brand>(rt.alloc(), &ROWS, Blank::new(1));
    all_hold(&rt, "floods", found);
}
