//! A frame around a level.
ghost use Rattle.mesh_handle.specs.Frames.{IsFraming};

use crate::statuses::{OK, OUT_OF_RANGE};
use world_grid::{Frame, FramedField, WorldPoint, frame_of};

/// The frame of these sizes whose field begins in the last whole column that is not behind `low`, at its height, and the columns that reach
/// from there to `high`.
pub fn frame_over(
    sizes: &Frame,
    low: &WorldPoint,
    high: &WorldPoint,
    field: &mut FramedField,
) -> u32
    ensures { IsFraming sizes.now low.now high.now field.old field.new result }
{
    match frame_of(sizes.cell_size, sizes.cell_height, *low, *high) {
        Some(found) => {
            *field = found;
            OK
        }
        None => OUT_OF_RANGE,
    }
}
