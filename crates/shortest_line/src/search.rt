//! The search by cones. Nothing is promised of what it finds, but that it ends.

use crate::cones::{Bend, Cone};
use crate::lengths::leg;
use crate::met_links::{EndLegs, MetLinks, NONE, counted};
use crate::waiting::{Waiting, is_lowest};
use mesh_types::{Link, Mesh, PolyRef, Portal, Side};
use nav_base::Point;
use std::alloc::{AllocError, Global};

/// What is looked for.
#[derive(Clone, Copy)]
pub(crate) struct SoughtLine<'a> {
    pub(crate) mesh: &'a Mesh,
    /// The polygon in which lines begin, and the one in which they end.
    pub(crate) first: PolyRef,
    pub(crate) last: PolyRef,
    pub(crate) from: Point,
    pub(crate) goal: Point,
    /// Whether lines bend at no end of a portal that the mesh surrounds.
    pub(crate) quick: bool,
}

/// For how many cones there is room at first.
const FIRST_ROOM: usize = 512;

/// A cone that the search made, and how it came there. Numbers are those of cones and links of the search.
#[derive(Clone, Copy)]
struct MadeCone {
    cone: Cone,
    legs: EndLegs,
    /// What a line by it has at least.
    key: u64,
    /// The link at which it stands.
    link: u32,
    /// The cone that it came of.
    parent: u32,
    /// While it waits the next cone of its list; then the cone that was taken before it at the same link.
    next: u32,
}

/// A search for a shortest line.
#[derive(Drop)]
pub(crate) struct ConeSearch {
    cones: Vec<MadeCone>,
    met: MetLinks,
    waiting: Waiting,
    /// The length of the shortest line that was found, `u64::MAX` where none was, and its last cone.
    best: u64,
    best_cone: u32,
}

impl ConeSearch {
    /// A search that has come to the links that leave the first polygon.
    pub(crate) fn new(alloc: Global, sought: SoughtLine) -> Result<Self, AllocError> {
        let mut search = ConeSearch {
            cones: Vec::with_capacity(alloc, FIRST_ROOM)?,
            met: MetLinks::new(alloc)?,
            waiting: Waiting::new(alloc, leg(sought.from, sought.goal))?,
            best: u64::MAX,
            best_cone: NONE,
        };
        search.begin(alloc, sought)?;
        Ok(search)
    }

    /// Comes to the links that leave the first polygon.
    fn begin(&mut self, alloc: Global, sought: SoughtLine) -> Result<(), AllocError> {
        let numbers = self.met.leaving(alloc, sought.mesh, sought.first)?;
        for number in numbers.first..numbers.end {
            if let Some(link) = self.met.link(number) {
                let cone = Cone::through(link.portal, sought.from, 0, 0);
                self.push(sought, cone, number, NONE, 0)?;
            }
        }
        Ok(())
    }

    /// Takes cones, until none is left by which a line is shorter, or so many were made. Whether none is left.
    pub(crate) fn run(
        &mut self,
        alloc: Global,
        sought: SoughtLine,
        most: u32,
    ) -> Result<bool, AllocError> {
        for _ in 0..u64::MAX {
            if counted(self.cones.len()) >= most {
                return Ok(false);
            }
            let Some(number) = self.pop() else {
                return Ok(true);
            };
            self.take(alloc, sought, number)?;
        }
        Ok(false)
    }

    /// The cone that is to be taken next.
    fn pop(&mut self) -> Option<u32> {
        let mut list = self.waiting.front()?;
        let mut number = self.waiting.first_of(list);
        if !is_lowest(list) {
            let made = self.cones.get(number as usize)?;
            if made.next == NONE {
                self.waiting.begin_at(made.key);
            } else {
                self.deal_out(list);
                list = self.waiting.front()?;
                number = self.waiting.first_of(list);
            }
        }
        let made = self.cones.get(number as usize)?;
        self.waiting.take_before(list, made.next);
        Some(number)
    }

    /// Deals the cones of a list out by a lower digit.
    fn deal_out(&mut self, list: usize) {
        let first = self.waiting.first_of(list);
        let least = self.least_of(first);
        self.waiting.take_before(list, NONE);
        self.waiting.begin_at(least);
        let mut number = first;
        for _ in 0..self.cones.len() {
            let Some(made) = self.cones.get_mut(number as usize) else {
                break;
            };
            let next = made.next;
            made.next = self.waiting.push(made.key, number);
            number = next;
        }
    }

    /// The least key of the cones of a list.
    fn least_of(&self, first: u32) -> u64 {
        let mut least = u64::MAX;
        let mut number = first;
        for _ in 0..self.cones.len() {
            let Some(made) = self.cones.get(number as usize) else {
                break;
            };
            least = least.min(made.key);
            number = made.next;
        }
        least
    }

    /// Takes a cone, unless another line comes to its link that is shorter.
    fn take(&mut self, alloc: Global, sought: SoughtLine, number: u32) -> Result<(), AllocError> {
        let Some(made) = self.cones.get(number as usize).copied() else {
            return Ok(());
        };
        if made.key >= self.best || self.is_passed_over(&made) {
            return Ok(());
        }
        let Some(link) = self.mark_taken(made.link, number) else {
            return Ok(());
        };
        if link.to == sought.last {
            self.finish(sought, &made, link, number);
            return Ok(());
        }
        self.follow(alloc, sought, &made, link, number)
    }

    /// Whether other lines to the link of a cone are shorter than any by it, or a cone taken there sees all that it sees.
    fn is_passed_over(&mut self, made: &MadeCone) -> bool {
        let Some(met) = self.met.get_mut(made.link) else {
            return true;
        };
        if met.beats(&made.cone, made.legs) {
            return true;
        }
        let mut other = met.taken;
        for _ in 0..self.cones.len() {
            let Some(taken) = self.cones.get(other as usize) else {
                return false;
            };
            if taken.cone.covers(&made.cone) {
                return true;
            }
            other = taken.next;
        }
        false
    }

    /// Notes that a cone is taken at a link, which is told.
    fn mark_taken(&mut self, link: u32, number: u32) -> Option<Link> {
        let met = self.met.get_mut(link)?;
        let before = met.taken;
        met.taken = number;
        let made = self.cones.get_mut(number as usize)?;
        made.next = before;
        Some(met.link)
    }

    /// A cone has come to the last polygon: the line by it is the best, if none found before is as short.
    fn finish(&mut self, sought: SoughtLine, made: &MadeCone, link: Link, number: u32) {
        let Some(bend) = made.cone.way_to(sought.goal) else {
            return;
        };
        let rest = rest_round(bend, made.cone.root, made.legs, link.portal, sought.goal);
        let len = made.cone.len.wrapping_add(rest);
        if len < self.best {
            self.best = len;
            self.best_cone = number;
        }
    }

    /// Goes on over the links that leave the polygon that a cone has come to, but those back.
    fn follow(
        &mut self,
        alloc: Global,
        sought: SoughtLine,
        made: &MadeCone,
        link: Link,
        parent: u32,
    ) -> Result<(), AllocError> {
        let numbers = self.met.leaving(alloc, sought.mesh, link.to)?;
        for number in numbers.first..numbers.end {
            if let Some(next) = self.met.link(number) {
                if next.to != link.from {
                    self.follow_over(sought, made, (link.portal, next.portal), number, parent)?;
                }
            }
        }
        Ok(())
    }

    /// Pushes the cones of the next link that come of one.
    fn follow_over(
        &mut self,
        sought: SoughtLine,
        made: &MadeCone,
        portals: (Portal, Portal),
        number: u32,
        parent: u32,
    ) -> Result<(), AllocError> {
        let (portal, next) = portals;
        let cone = &made.cone;
        if cone.whole {
            let on = Cone::through(next, cone.root, cone.len, cone.legs);
            return self.push(sought, on, number, parent, made.key);
        }
        let sides = cone.sides(next);
        if cone.through_left && sides.is_left() && self.bends(sought, made.link, Side::L) {
            let left = cone.turned_left(sides, portal, next, cone.len.wrapping_add(made.legs.left));
            self.push(sought, left, number, parent, made.key)?;
        }
        if sides.is_between() {
            let on = cone.straight_on(sides, next);
            self.push(sought, on, number, parent, made.key)?;
        }
        if cone.through_right && sides.is_right() && self.bends(sought, made.link, Side::R) {
            let right = cone.turned_right(
                sides,
                portal,
                next,
                cone.len.wrapping_add(made.legs.right),
            );
            self.push(sought, right, number, parent, made.key)?;
        }
        Ok(())
    }

    /// Whether lines bend at an end of a link's portal.
    fn bends(&mut self, sought: SoughtLine, link: u32, side: Side) -> bool {
        if !sought.quick {
            return true;
        }
        match self.met.get_mut(link) {
            Some(met) => met.bends(sought.mesh, side),
            None => true,
        }
    }

    /// A cone comes to a link. It waits, unless other lines there are shorter, or the least rest is too long: the straight one, or the one round an end
    /// of the portal behind which the goal lies. No key is less than that of the cone that it came of.
    fn push(
        &mut self,
        sought: SoughtLine,
        cone: Cone,
        link: u32,
        parent: u32,
        floor: u64,
    ) -> Result<(), AllocError> {
        let Some(portal) = self.met.get(link).map(|met| met.link.portal) else {
            return Ok(());
        };
        let legs = EndLegs {
            left: leg(cone.root, portal.left),
            right: leg(cone.root, portal.right),
        };
        if self.met.reach(link, &cone, legs) {
            return Ok(());
        }
        let rest = cone.rest(portal, legs, sought.goal);
        let key = floor.max(cone.len.wrapping_add(rest));
        if key >= self.best {
            return Ok(());
        }
        let number = counted(self.cones.len());
        let next = self.waiting.push(key, number);
        self.cones.push(MadeCone {
            cone,
            legs,
            key,
            link,
            parent,
            next,
        })?;
        Ok(())
    }

    /// How many links the shortest line that was found has.
    fn steps(&self) -> usize {
        let mut steps: usize = 0;
        let mut number = self.best_cone;
        for _ in 0..self.cones.len() {
            let Some(made) = self.cones.get(number as usize) else {
                break;
            };
            steps = steps.wrapping_add(1);
            number = made.parent;
        }
        steps
    }

    /// The links of the shortest line that was found, in order; none where none was.
    pub(crate) fn links(&self, alloc: Global) -> Result<Vec<Link>, AllocError> {
        let mut links = Vec::with_capacity(alloc, self.steps())?;
        let mut number = self.best_cone;
        for _ in 0..self.cones.len() {
            let Some(made) = self.cones.get(number as usize) else {
                break;
            };
            let Some(link) = self.met.link(made.link) else {
                break;
            };
            links.push(link)?;
            number = made.parent;
        }
        links.reverse();
        Ok(links)
    }
}

/// Parts from the root of a cone to a goal, straight or round an end of its portal.
fn rest_round(bend: Bend, root: Point, legs: EndLegs, portal: Portal, goal: Point) -> u64 {
    match bend {
        Bend::None => leg(root, goal),
        Bend::Left => legs.left.wrapping_add(leg(portal.left, goal)),
        Bend::Right => legs.right.wrapping_add(leg(portal.right, goal)),
    }
}
