// Getfield, and the fields of a heap's objects.
ghost use Rattle.std.specs.Prelude.{◌≡◌, ◌<◌};
ghost use Rattle.jinja.specs.declared.instr.Instr.TheVariants as instrs;
ghost use Rattle.tables.specs.Views.{program_of};
ghost use Rattle.engine.specs.Ready.{Ready};
ghost use Rattle.engine.specs.Views.{frames_of, meaning_of};
ghost use Rattle.engine.specs.Stepping.{Steps};
ghost use Rattle.engine.specs.FieldValues.{value_at, field_value};

use crate::fitting::fits;
use crate::frames::Frames;
use crate::next::Next;
use crate::objects::{class_at, raise};
use crate::program::Program;
use crate::references::NULL_POINTER_AT;
use heap::store::Heap;
use heap::value::Value;
use jinja::program::{ClassNumber, FieldPlace, Name};
use tables::tables::Tables;

#[inline(always)]
pub(crate) fn getfield<H: Heap>(
    program: Program,
    heap: &H,
    frames: &mut Frames,
    height: usize,
    name: Name,
    c: ClassNumber,
) -> Option<Next>
    requires ready { Ready frames.old }
    ensures { Steps (meaning_of program.entry) height (instrs.Getfield name c) (H.Heap.meaning heap.now) (frames_of frames.old) result (H.Heap.meaning heap.now) (frames_of frames.new) }
{
    let v = frames.operand(0)?;
    let field = program.tables.own_field(c, name)?;
    if frames.height() > height {
        return None;
    }
    match v {
        Value::Null => raise(program, heap, frames, NULL_POINTER_AT),
        Value::Addr(a) => {
            let value = field_value(program.tables, heap, field, c, a)?;
            frames.pass_with(1, value);
            Some(Next::Goes)
        }
        Value::Unit => None,
        Value::Bool(_) => None,
        Value::Int(_) => None,
    }
}

// What stands at a place of the object at an address.
#[inline(always)]
fn value_at<H: Heap>(heap: &H, a: u16, i: usize) -> Option<Value>
    ensures { result ≡ value_at (H.Heap.meaning heap.now) a i }
{
    heap.read(a, i).ok()
}

// The value of the field that the class `c` declares, of the object at an address.
#[inline(always)]
pub(crate) fn field_value<H: Heap>(
    tables: &Tables,
    heap: &H,
    field: FieldPlace,
    c: ClassNumber,
    a: u16,
) -> Option<Value>
    ensures { result ≡ field_value (program_of tables.now) (H.Heap.meaning heap.now) field c a }
{
    let d = class_at(heap, a)?;
    if !tables.at_or_below(d, c) {
        return None;
    }
    let v = value_at(heap, a, field.place)?;
    fits(tables, heap, v, field.ty).then_some(v)
}
