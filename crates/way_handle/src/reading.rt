//! Links and turns that a host hands back as they were told.

ghost use Rattle.std.specs.Prelude.{◌≡◌, IfOk};
ghost use Rattle.way_handle.specs.Reading.{links_of, turns_of};

use mesh_types::{Corner, Link, PolyRef, Portal, Side};
use nav_handle::{NavdLink, NavdPolygon, NavdTurn, point_of};
use nav_lists::Items;
use std::alloc::{AllocError, Global};

pub(crate) fn polygon_of(at: NavdPolygon) -> PolyRef
    ensures { result ≡ Rattle.way_handle.specs.Reading.polygon_of at }
{
    PolyRef {
        tile: at.tile,
        index: at.index,
    }
}

fn link_of(link: &NavdLink) -> Link
    ensures { result ≡ Rattle.way_handle.specs.Reading.link_of link.now }
{
    Link {
        from: polygon_of(link.from),
        edge: link.edge,
        to: polygon_of(link.to),
        portal: Portal {
            left: point_of(link.left),
            right: point_of(link.right),
        },
    }
}

/// The links of the host's array.
pub fn links_of(alloc: Global, links: &[NavdLink]) -> Result<Items<Link>, AllocError>
    ensures { IfOk result (λ list. list ≡ links_of links.now) }
{
    let mut list = Vec::with_capacity(alloc, links.len())?;
    for link in links {
        list.push(link_of(link))?;
    }
    Ok(Items::from_vec(list))
}

/// On which hand a turn is: 0 is the left one.
fn side_of(side: u32) -> Side
    ensures { result ≡ Rattle.way_handle.specs.Reading.side_of side }
{
    if side == 0 { Side::L } else { Side::R }
}

fn turn_of(turn: &NavdTurn) -> Corner
    ensures { result ≡ Rattle.way_handle.specs.Reading.turn_of turn.now }
{
    Corner {
        at: point_of(turn.at),
        side: side_of(turn.side),
        portal: turn.link,
    }
}

/// The turns of the host's array.
pub(crate) fn turns_of(alloc: Global, turns: &[NavdTurn]) -> Result<Items<Corner>, AllocError>
    ensures { IfOk result (λ list. list ≡ turns_of turns.now) }
{
    let mut list = Vec::with_capacity(alloc, turns.len())?;
    for turn in turns {
        list.push(turn_of(turn))?;
    }
    Ok(Items::from_vec(list))
}
