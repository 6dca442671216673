//! The links that a search by cones has met, with what it knows of each.

use crate::cones::Cone;
use crate::lengths::leg;
use crate::surrounded::is_surrounded;
use mesh_types::{Link, Mesh, PolyRef, Side};
use path_queries::{inner, outer};
use std::alloc::{AllocError, Global};

/// Stands for the number of no cone.
pub(crate) const NONE: u32 = u32::MAX;

/// For how many links there is room at first.
const FIRST_LINKS: usize = 512;

/// A link, and what the cones that came to it tell.
#[derive(Clone, Copy)]
pub(crate) struct MetLink {
    pub(crate) link: Link,
    /// The portal's length in parts, rounded up; 0 where it was not asked for.
    width: u64,
    /// Parts within which the left end of the portal is reached for certain, and the right end; `u64::MAX` where neither is known.
    reach_left: u64,
    reach_right: u64,
    /// The number of the cone that was taken here last.
    pub(crate) taken: u32,
    /// The number of the link back through the same portal, `NONE` where it was not met.
    back: u32,
    /// Whether a line may bend at the left end, and at the right end, where that was asked before.
    bends_left: Option<bool>,
    bends_right: Option<bool>,
}

/// Parts from the root of a cone to both ends of its portal, rounded down.
#[derive(Clone, Copy)]
pub(crate) struct EndLegs {
    pub(crate) left: u64,
    pub(crate) right: u64,
}

impl MetLink {
    /// A link that no cone came to yet.
    fn new(link: Link) -> Self {
        MetLink {
            link,
            width: 0,
            reach_left: u64::MAX,
            reach_right: u64::MAX,
            taken: NONE,
            back: NONE,
            bends_left: None,
            bends_right: None,
        }
    }

    /// Whether each point of the portal is reached along the portal from one of its ends by less than by a cone.
    pub(crate) fn beats(&mut self, cone: &Cone, legs: EndLegs) -> bool {
        let by_left = cone.len.wrapping_add(legs.right);
        let by_right = cone.len.wrapping_add(legs.left);
        if self.reach_left >= by_left && self.reach_right >= by_right {
            return false;
        }
        if self.width == 0 {
            self.width = leg(self.link.portal.left, self.link.portal.right).wrapping_add(1);
        }
        let across = self.width.wrapping_add(1);
        self.reach_left.saturating_add(across) <= by_left
            || self.reach_right.saturating_add(across) <= by_right
    }

    /// Whether a line may bend at an end of the portal: one that the mesh does not surround.
    pub(crate) fn bends(&mut self, mesh: &Mesh, side: Side) -> bool {
        let known = match side {
            Side::L => self.bends_left,
            Side::R => self.bends_right,
        };
        if let Some(bends) = known {
            return bends;
        }
        let bends = !is_surrounded(mesh, self.link, side);
        match side {
            Side::L => self.bends_left = Some(bends),
            Side::R => self.bends_right = Some(bends),
        }
        bends
    }
}

/// The links met, those that leave one polygon one after the other.
#[derive(Drop)]
pub(crate) struct MetLinks {
    links: Vec<MetLink>,
    /// By tile and polygon: the numbers of the links that leave it, `NOT_MET` where these were not met. A tile that was not met has none.
    leaving: Vec<Vec<LinkNumbers>>,
}

/// Numbers of links, from the first up to before the end.
#[derive(Clone, Copy)]
pub(crate) struct LinkNumbers {
    pub(crate) first: u32,
    pub(crate) end: u32,
}

/// Stands for the numbers of links that were not met.
const NOT_MET: LinkNumbers = LinkNumbers {
    first: NONE,
    end: NONE,
};

impl MetLinks {
    /// No link was met.
    pub(crate) fn new(alloc: Global) -> Result<Self, AllocError> {
        Ok(MetLinks {
            links: Vec::with_capacity(alloc, FIRST_LINKS)?,
            leaving: Vec::new(alloc),
        })
    }

    /// What is known of a link.
    pub(crate) fn get(&self, number: u32) -> Option<&MetLink> {
        self.links.get(number as usize)
    }

    /// A link.
    pub(crate) fn link(&self, number: u32) -> Option<Link> {
        self.get(number).map(|met| met.link)
    }

    /// What is known of a link, to be changed.
    pub(crate) fn get_mut(&mut self, number: u32) -> Option<&mut MetLink> {
        self.links.get_mut(number as usize)
    }

    /// A cone comes to a link: the ends that its rays go through are reached by its line and one leg more, from both sides of the portal. Whether the
    /// cone is beaten by those that came before.
    pub(crate) fn reach(&mut self, number: u32, cone: &Cone, legs: EndLegs) -> bool {
        self.find_back(number);
        let Some(met) = self.links.get_mut(number as usize) else {
            return true;
        };
        let beaten = met.beats(cone, legs);
        let back = met.back;
        let len = cone.len.wrapping_add(u64::from(cone.legs)).wrapping_add(1);
        let left = len.wrapping_add(legs.left);
        let right = len.wrapping_add(legs.right);
        let nears_left = cone.through_left && left < met.reach_left;
        let nears_right = cone.through_right && right < met.reach_right;
        if nears_left {
            met.reach_left = left;
        }
        if nears_right {
            met.reach_right = right;
        }
        if back != NONE {
            if let Some(other) = self.links.get_mut(back as usize) {
                if nears_left {
                    other.reach_right = left;
                }
                if nears_right {
                    other.reach_left = right;
                }
            }
        }
        beaten
    }

    /// Looks for the link back through the portal of a link, and tells each what is known of the other, if that was not done.
    fn find_back(&mut self, number: u32) {
        let Some(met) = self.links.get(number as usize) else {
            return;
        };
        if met.back != NONE {
            return;
        }
        let back = self.link_back(&met.link);
        if back != NONE {
            self.join(number, back);
        }
    }

    /// The links through one portal know of each other what is known of one.
    fn join(&mut self, number: u32, back: u32) {
        let Some(other) = self.links.get_mut(back as usize) else {
            return;
        };
        other.back = number;
        let (reach_left, reach_right) = (other.reach_right, other.reach_left);
        let Some(met) = self.links.get_mut(number as usize) else {
            return;
        };
        met.back = back;
        met.reach_left = met.reach_left.min(reach_left);
        met.reach_right = met.reach_right.min(reach_right);
        let (reach_left, reach_right) = (met.reach_right, met.reach_left);
        if let Some(other) = self.links.get_mut(back as usize) {
            other.reach_left = reach_left;
            other.reach_right = reach_right;
        }
    }

    /// The numbers of the links that leave a polygon, which are met by this.
    pub(crate) fn leaving(
        &mut self,
        alloc: Global,
        mesh: &Mesh,
        at: PolyRef,
    ) -> Result<LinkNumbers, AllocError> {
        match self.entry(at) {
            Some(known) => {
                if known.first != NONE {
                    return Ok(known);
                }
            }
            None => self.add_page(alloc, mesh, at.tile)?,
        }
        let first = counted(self.links.len());
        self.add(inner(mesh, at))?;
        self.add(outer(mesh, at))?;
        let end = counted(self.links.len());
        let numbers = LinkNumbers { first, end };
        self.set_known(at, numbers);
        Ok(numbers)
    }

    /// Adds links that no cone came to yet.
    fn add(&mut self, links: &[Link]) -> Result<(), AllocError> {
        for link in links {
            self.links.push(MetLink::new(*link))?;
        }
        Ok(())
    }

    /// The number of the link back through the same portal as a link, `NONE` where it was not met.
    fn link_back(&self, link: &Link) -> u32 {
        let numbers = self.known(link.to);
        for number in numbers.first..numbers.end {
            if let Some(other) = self.get(number) {
                if other.link.portal.left == link.portal.right
                    && other.link.portal.right == link.portal.left
                    && other.link.to == link.from
                {
                    return number;
                }
            }
        }
        NONE
    }

    /// Makes room for the polygons of a tile.
    fn add_page(&mut self, alloc: Global, mesh: &Mesh, tile: u32) -> Result<(), AllocError> {
        let place = tile as usize;
        for _ in self.leaving.len()..place + 1 {
            self.leaving.push(Vec::new(alloc))?;
        }
        let Some(built) = mesh.tiles.get(place) else {
            return Ok(());
        };
        let polygons = built.get().polys.len();
        if let Some(page) = self.leaving.get_mut(place) {
            if page.len() < polygons {
                page.resize(polygons, NOT_MET)?;
            }
        }
        Ok(())
    }

    /// The numbers of the links that leave a polygon, where they were met.
    fn known(&self, at: PolyRef) -> LinkNumbers {
        self.entry(at).unwrap_or(NOT_MET)
    }

    /// The same, where its tile was met.
    fn entry(&self, at: PolyRef) -> Option<LinkNumbers> {
        let page = self.leaving.get(at.tile as usize)?;
        page.get(at.index as usize).copied()
    }

    /// Writes these numbers.
    fn set_known(&mut self, at: PolyRef, numbers: LinkNumbers) {
        if let Some(page) = self.leaving.get_mut(at.tile as usize) {
            if let Some(known) = page.get_mut(at.index as usize) {
                *known = numbers;
            }
        }
    }
}

/// A count as a number of 32 bits, the greatest where it is more.
pub(crate) fn counted(count: usize) -> u32 {
    count.min(u32::MAX as usize) as u32
}
