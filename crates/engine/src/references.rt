// The instructions on a reference that change no object: Throw and Checkcast.
ghost use Rattle.std.specs.Prelude.{◌≡◌, ◌<◌, Some};
ghost use Rattle.std.specs.List.{slice_get};
ghost use Rattle.heap.specs.declared.value.Value.{Value as Held};
ghost use Rattle.jinja.specs.declared.instr.Instr.TheVariants as instrs;
ghost use Rattle.engine.specs.Ready.{Ready};
ghost use Rattle.engine.specs.Views.{frames_of, meaning_of};
ghost use Rattle.engine.specs.Stepping.{top_stack, cast_top, settle, Steps};

use crate::frames::Frames;
use crate::next::Next;
use crate::objects::{class_at, raise};
use crate::program::Program;
use heap::store::Heap;
use heap::value::Value;
use jinja::program::ClassNumber;

/// Where begin puts the NullPointer object.
pub const NULL_POINTER_AT: u16 = 0;
/// Where begin puts the ClassCast object.
pub const CLASS_CAST_AT: u16 = 1;
/// Where begin puts the OutOfMemory object.
pub const OUT_OF_MEMORY_AT: u16 = 2;

pub(crate) fn throw<H: Heap>(
    program: Program,
    heap: &H,
    frames: &mut Frames,
    height: usize,
) -> Option<Next>
    ensures { Steps (meaning_of program.entry) height instrs.Throw (H.Heap.meaning heap.now) (frames_of frames.old) result (H.Heap.meaning heap.now) (frames_of frames.new) }
{
    let v = frames.operand(0)?;
    match v {
        Value::Null => raise(program, heap, frames, NULL_POINTER_AT),
        Value::Addr(a) => raise(program, heap, frames, a),
        Value::Unit => None,
        Value::Bool(_) => None,
        Value::Int(_) => None,
    }
}

#[inline(always)]
pub(crate) fn checkcast<H: Heap>(
    program: Program,
    heap: &H,
    frames: &mut Frames,
    height: usize,
    c: ClassNumber,
) -> Option<Next>
    requires ready { Ready frames.old }
    ensures { Steps (meaning_of program.entry) height (instrs.Checkcast c) (H.Heap.meaning heap.now) (frames_of frames.old) result (H.Heap.meaning heap.now) (frames_of frames.new) }
{
    let v = frames.operand(0)?;
    if !program.tables.is_class(c) {
        return None;
    }
    if frames.height() > height {
        return None;
    }
    match v {
        Value::Null => {
            frames.pass(0);
            Some(Next::Goes)
        }
        Value::Addr(a) => cast(program, heap, frames, c, a),
        Value::Unit => None,
        Value::Bool(_) => None,
        Value::Int(_) => None,
    }
}

// The object at `a`, on top, is cast to `c`.
#[inline(always)]
fn cast<H: Heap>(
    program: Program,
    heap: &H,
    frames: &mut Frames,
    c: ClassNumber,
    a: u16,
) -> Option<Next>
    requires ready { Ready frames.old }
    ensures { (v : Held) → Some v ≡ slice_get (top_stack (frames_of frames.old)) 0 → (result, H.Heap.meaning heap.now, frames_of frames.new) ≡ settle (H.Heap.meaning heap.now) (frames_of frames.old) (cast_top (meaning_of program.entry) (H.Heap.meaning heap.now) c a (frames_of frames.old)) }
{
    let d = class_at(heap, a)?;
    if program.tables.at_or_below(d, c) {
        frames.pass(0);
        return Some(Next::Goes);
    }
    raise(program, heap, frames, CLASS_CAST_AT)
}
