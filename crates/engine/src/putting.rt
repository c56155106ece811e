// Putfield: another value at a field's place.
ghost use Rattle.std.specs.Prelude.{◌≡◌, ◌<◌, ◌≤◌, length, is_some};
ghost use Rattle.heap.specs.Calls.{has_field, after_write};
ghost use Rattle.jinja.specs.declared.instr.Instr.TheVariants as instrs;
ghost use Rattle.tables.specs.Views.{program_of};
ghost use Rattle.engine.specs.Ready.{Ready};
ghost use Rattle.engine.specs.Views.{frames_of, meaning_of};
ghost use Rattle.engine.specs.Stepping.{top_stack, settle, Steps};
ghost use Rattle.engine.specs.FieldValues.{put_top};

use crate::fitting::fits;
use crate::frames::Frames;
use crate::next::Next;
use crate::objects::{class_at, raise};
use crate::program::Program;
use crate::references::NULL_POINTER_AT;
use heap::store::Heap;
use heap::value::Value;
use jinja::program::{ClassNumber, FieldPlace, Name};
use tables::tables::Tables;

#[inline(always)]
pub(crate) fn putfield<H: Heap>(
    program: Program,
    heap: &mut H,
    frames: &mut Frames,
    height: usize,
    name: Name,
    c: ClassNumber,
) -> Option<Next>
    requires ready { Ready frames.old }
    ensures { Steps (meaning_of program.entry) height (instrs.Putfield name c) (H.Heap.meaning heap.old) (frames_of frames.old) result (H.Heap.meaning heap.new) (frames_of frames.new) }
{
    let reference = frames.operand(1)?;
    let v = frames.operand(0)?;
    let field = program.tables.own_field(c, name)?;
    if !fits(program.tables, heap, v, field.ty) {
        return None;
    }
    match reference {
        Value::Null => raise(program, heap, frames, NULL_POINTER_AT),
        Value::Addr(a) => put(program.tables, heap, frames, field, c, a, v),
        Value::Unit => None,
        Value::Bool(_) => None,
        Value::Int(_) => None,
    }
}

// Puts the value at the field's place of the object at `a`.
#[inline(always)]
fn put<H: Heap>(
    tables: &Tables,
    heap: &mut H,
    frames: &mut Frames,
    field: FieldPlace,
    c: ClassNumber,
    a: u16,
    v: Value,
) -> Option<Next>
    requires ready { Ready frames.old }
    requires high { 2 ≤ length (top_stack (frames_of frames.old)) }
    ensures { (result, H.Heap.meaning heap.new, frames_of frames.new) ≡ settle (H.Heap.meaning heap.old) (frames_of frames.old) (put_top (program_of tables.now) (H.Heap.meaning heap.old) field c a v (frames_of frames.old)) }
{
    let d = class_at(heap, a)?;
    if !tables.at_or_below(d, c) {
        return None;
    }
    write(heap, a, field.place, v)?;
    frames.pass(2);
    Some(Next::Goes)
}

// Puts the value where the object at `a` has such a place.
#[inline(always)]
fn write<H: Heap>(heap: &mut H, a: u16, i: usize, v: Value) -> Option<()>
    ensures told { is_some result ≡ has_field (H.Heap.meaning heap.old) a i }
    ensures after { H.Heap.meaning heap.new ≡ after_write (H.Heap.meaning heap.old) a i v }
{
    heap.write(a, i, v).ok()
}
