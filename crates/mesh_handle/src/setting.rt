//! The setting and the slope that a host asks for.
ghost use Rattle.std.specs.Prelude.{◌≡◌, IfSome, IsNone, MatchBool};
ghost use Rattle.nav_ground.specs.Limits.{IsSetting};
ghost use Rattle.mesh_input.specs.declared.slope.Slope.{Slope};
ghost use Rattle.mesh_handle.specs.Settings.{HasAgent, HasRest, HasSizes, IsSlopeOf, setting_of};

use crate::wire::{NavdSetting, NavdSlope};
use mesh_input::Slope;
use nav_ground::{AREAS, Agent, MeshKind, Setting};

/// The setting that a host asks for; each area costs 1.
pub fn setting_of(asked: &NavdSetting) -> Setting
    ensures { result ≡ setting_of asked.now }
{
    Setting {
        width: asked.width,
        depth: asked.depth,
        tile: asked.tile,
        agent: Agent {
            height: asked.height,
            climb: asked.climb,
            radius: asked.radius,
        },
        error: asked.error,
        mesh: if asked.contours == 0 {
            MeshKind::Strips
        } else {
            MeshKind::Contours
        },
        limit: asked.limit,
        costs: [1; AREAS],
        clear: asked.clear != 0,
    }
}

/// Whether the size, the tiles and the limit of what is asked for are in their limits.
fn has_sizes(asked: &NavdSetting) -> bool
    ensures { MatchBool result (HasSizes asked.now) (¬ HasSizes asked.now) }
{
    1 <= asked.width
        && asked.width <= 1024
        && 1 <= asked.depth
        && asked.depth <= 1024
        && 4 <= asked.tile
        && asked.tile <= 128
}

/// Whether the agent and the rest of what is asked for are in their limits.
fn has_agent(asked: &NavdSetting) -> bool
    ensures { MatchBool result (HasAgent asked.now) (¬ HasAgent asked.now) }
{
    1 <= asked.height && asked.height <= 255 && asked.climb < asked.height && asked.radius <= 15
}

fn has_rest(asked: &NavdSetting) -> bool
    ensures { MatchBool result (HasRest asked.now) (¬ HasRest asked.now) }
{
    asked.error <= 10000 && 1 <= asked.limit && asked.limit <= 1024
}

/// The setting that a host asks for, where it is one.
pub fn asked_setting(asked: &NavdSetting) -> Option<Setting>
    ensures value { IfSome result (λ setting. setting ≡ setting_of asked.now) }
    ensures rules { IfSome result IsSetting }
    ensures none { IsNone result → ¬ IsSetting (setting_of asked.now) }
{
    if !has_sizes(asked) || !has_agent(asked) || !has_rest(asked) {
        return None;
    }
    if asked.clear != 0 && asked.tile < 2 * asked.radius {
        return None;
    }
    Some(setting_of(asked))
}

/// The slope that a host asks for, where it is one.
pub(crate) fn slope(asked: &NavdSlope) -> Option<Slope>
    ensures found { IfSome result (IsSlopeOf asked.now) }
    ensures none { IsNone result → (slope : Slope) → ¬ IsSlopeOf asked.now slope }
{
    if asked.rise > 16384 || asked.run > 131072 {
        return None;
    }
    Some(Slope {
        rise: asked.rise,
        run: asked.run,
        both_sides: asked.both_sides != 0,
    })
}
