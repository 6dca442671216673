//! The settings of the kinds that a host asks for.

ghost use Rattle.std.specs.Prelude.{◌≡◌, ◌↔◌, ◌≤◌, All, IfOk, IfSome, IsNone, IsTrue, length};
ghost use Rattle.nav_ground.specs.Limits.{IsSetting};
ghost use Rattle.path_queries.specs.Filters.{AreCosts};
ghost use Rattle.kinds_handle.specs.KindSettings.{CanOpenKinds, IsKindOf, costs_said, kind_setting, kind_settings};

use crate::spans::are_spans;
use crate::wire::{NavdGround, NavdKind, NavdSpan};
use mesh_handle::{NavdSetting, asked_setting, setting_of};
use nav_ground::{AREAS, Setting};
use nav_handle::table_of;
use std::alloc::{AllocError, Global};

/// How many kinds there can be.
const MAX_KINDS: usize = 16;

/// The setting of a kind, as mesh_handle has it.
fn asked_of(ground: &NavdGround, kind: &NavdKind) -> NavdSetting
    ensures { result ≡ Rattle.kinds_handle.specs.KindSettings.asked_of ground.now kind.now }
{
    NavdSetting {
        width: ground.width,
        depth: ground.depth,
        tile: kind.tile,
        height: kind.height,
        climb: kind.climb,
        radius: kind.radius,
        error: ground.error,
        contours: ground.contours,
        limit: ground.limit,
        clear: kind.clear,
    }
}

/// The setting of a kind, whatever its numbers are.
fn kind_setting(ground: &NavdGround, costs: [u32; AREAS], kind: &NavdKind) -> Setting
    ensures { result ≡ kind_setting ground.now costs kind.now }
{
    Setting {
        costs,
        ..setting_of(&asked_of(ground, kind))
    }
}

/// Whether the numbers of a kind are in their limits.
fn is_kind_of(ground: &NavdGround, kind: &NavdKind) -> bool
    ensures { IsTrue result ↔ IsKindOf ground.now kind.now }
{
    asked_setting(&asked_of(ground, kind)).is_some()
}

/// Whether the numbers of all kinds are in their limits.
fn are_kinds_of(ground: &NavdGround, kinds: &[NavdKind]) -> bool
    ensures { IsTrue result ↔ All (IsKindOf ground.now) kinds.now }
{
    for kind in kinds {
        if !is_kind_of(ground, kind) {
            return false;
        }
    }
    true
}

/// The costs of areas that a host says; none exactly where they are no costs.
fn costs_of(costs: &[u32]) -> Option<[u32; AREAS]>
    ensures table { IfSome result (λ table. table ≡ costs_said costs.now) }
    ensures rules { IfSome result AreCosts }
    ensures none { IsNone result → AreCosts (costs_said costs.now) → ⊥ }
{
    if costs.len() == 0 {
        return Some([1; AREAS]);
    }
    table_of(costs)
}

/// The costs of areas for kinds that can be opened; none exactly where these cannot be.
pub(crate) fn costs_to_open(
    ground: &NavdGround,
    kinds: &[NavdKind],
    costs: &[u32],
    spans: &[NavdSpan],
) -> Option<[u32; AREAS]>
    ensures table { IfSome result (λ table. table ≡ costs_said costs.now) }
    ensures can { IfSome result (λ table. CanOpenKinds ground.now kinds.now table spans.now) }
    ensures none { IsNone result → CanOpenKinds ground.now kinds.now (costs_said costs.now) spans.now → ⊥ }
{
    if kinds.len() == 0 || kinds.len() > MAX_KINDS {
        return None;
    }
    if !are_kinds_of(ground, kinds) || !are_spans(ground, spans) {
        return None;
    }
    costs_of(costs)
}

/// The settings of kinds.
pub(crate) fn kind_settings(
    alloc: Global,
    ground: &NavdGround,
    costs: [u32; AREAS],
    kinds: &[NavdKind],
) -> Result<Vec<Setting>, AllocError>
    ensures { IfOk result (λ made. made.items ≡ kind_settings ground.now costs kinds.now) }
{
    let mut made = Vec::with_capacity(alloc, kinds.len())?;
    for kind in kinds {
        made.push(kind_setting(ground, costs, kind))?;
    }
    Ok(made)
}
