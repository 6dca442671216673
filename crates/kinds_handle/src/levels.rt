//! The level of a kind, of which a view is made.

ghost use Rattle.std.specs.Prelude.{◌≡◌, MatchOption, None, Some, slice_get};

use agent_kinds::Kinds;
use nav_book::Level;

/// The level of a kind, by its number from 0; none exactly where there is no such kind.
pub fn kind_level(held: &Kinds, kind: u32) -> Option<&Level>
    ensures { MatchOption result (slice_get held.now kind ≡ None) (λ level. slice_get held.now kind ≡ Some level.now) }
{
    let kind = kind as usize;
    if kind < held.count() {
        Some(held.level(kind))
    } else {
        None
    }
}
