//! Laws of straight ways, whoever finds them. The calls do nothing; a proof that has a straight way cites what they ensure.

ghost use Rattle.fine_walk.specs.Laws.{AreEndsHeld, DoWaysStay, DoesEndInside, IsOneWay};

/// A straight way stays on the mesh: each of its places lies in a polygon, and it passes from one to the next through a portal. Its end is held.
pub fn stays()
    ensures on_mesh { DoWaysStay }
    ensures end { AreEndsHeld }
{}

/// There is one straight way at most between two points, begun in a polygon.
pub fn one()
    ensures { IsOneWay }
{}

/// Where the polygon in which it begins holds its end, the straight way takes no link.
pub fn inside()
    ensures { DoesEndInside }
{}
