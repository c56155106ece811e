// What a handler's target gets.
ghost use Rattle.std.specs.Prelude.{◌≡◌, ℕ, ◌<◌, ◌≤◌, ◌∷◌, length};
ghost use Rattle.format.specs.Limits.{max_height};
ghost use Rattle.jinja.specs.Handlers.{lowest};
ghost use Rattle.type_rows.specs.RowSteps.{row_types, row_cells, Reached};
ghost use Rattle.type_rows.specs.TypeFrames.{frame_types, frame_cells};

use crate::frame::TypeFrame;
use crate::row::CELLS;
use jinja::program::ClassNumber;
use jinja::ty::Ty;
use walk::WIDTH;

/// Writes the lowest `depth` types of a frame with a class on top, and the frame's registers.
pub(crate) fn catch(frame: TypeFrame, depth: usize, class: ClassNumber, out: &mut [u16; WIDTH])
    requires deep { depth ≤ length (frame_types frame) }
    requires room { depth < max_height }
    ensures types { row_types out.new ≡ Ty.Class class ∷ lowest depth (frame_types frame) }
    ensures cells { (n : ℕ) → row_cells n out.new ≡ frame_cells n frame }
    ensures reached { Reached out.new }
{
    let mut caught = frame;
    caught.cut(depth);
    let _ = caught.push(CELLS, Ty::Class(class));
    caught.write(out);
}
