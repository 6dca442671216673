//! The setting of the meshes that are written out.

use nav_ground::{AREAS, Agent, MeshKind, Setting};

/// 8 by 4 columns in two tiles side by side.
pub(crate) const PLAIN: Setting = Setting {
    width: 8,
    depth: 4,
    tile: 4,
    agent: Agent {
        height: 8,
        climb: 3,
        radius: 0,
    },
    error: 100,
    mesh: MeshKind::Strips,
    limit: 9,
    costs: [1; AREAS],
    clear: false,
};
