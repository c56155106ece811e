// Objects of any heap: their classes, and what is thrown.
ghost use Rattle.std.specs.Prelude.{◌≡◌};
ghost use Rattle.jinja.specs.Step.{raise};
ghost use Rattle.jinja.specs.Values.{class_of};
ghost use Rattle.engine.specs.Views.{frames_of, meaning_of};
ghost use Rattle.engine.specs.Stepping.{settle};

use crate::frames::Frames;
use crate::next::Next;
use crate::program::Program;
use crate::throwing::unwind;
use heap::store::Heap;
use jinja::program::ClassNumber;

// The class of the object at an address.
#[inline(always)]
pub(crate) fn class_at<H: Heap>(heap: &H, a: u16) -> Option<ClassNumber>
    ensures { result ≡ class_of (H.Heap.meaning heap.now) a }
{
    heap.class(a).ok()
}

// The object at `a` is thrown in the top frame.
#[inline(always)]
pub(crate) fn raise<H: Heap>(
    program: Program,
    heap: &H,
    frames: &mut Frames,
    a: u16,
) -> Option<Next>
    ensures { (result, H.Heap.meaning heap.now, frames_of frames.new) ≡ settle (H.Heap.meaning heap.now) (frames_of frames.old) (raise (meaning_of program.entry) (H.Heap.meaning heap.now) a (frames_of frames.old)) }
{
    let c = class_at(heap, a)?;
    unwind(program, frames, a, c)
}
