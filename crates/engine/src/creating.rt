// New, and objects with the values that their fields start with.
ghost use Rattle.std.specs.Prelude.{◌≡◌, ◌+◌, ◌<◌, ◌≤◌, length, take};
ghost use Rattle.jinja.specs.declared.instr.Instr.TheVariants as instrs;
ghost use Rattle.jinja.specs.Values.{start_value, start_row};
ghost use Rattle.tables.specs.Views.{program_of};
ghost use Rattle.engine.specs.Ready.{Ready};
ghost use Rattle.engine.specs.Views.{frames_of, meaning_of};
ghost use Rattle.engine.specs.Stepping.{Steps};
ghost use Rattle.engine.specs.Creating.{appended, created, Started, SameFrom};

use crate::bounds::Bounds;
use crate::frames::Frames;
use crate::next::Next;
use crate::objects::raise;
use crate::program::Program;
use crate::references::OUT_OF_MEMORY_AT;
use heap::limits::ROW_LIMIT;
use heap::store::Heap;
use heap::value::Value;
use jinja::program::{ClassNumber, Field};
use jinja::ty::Ty;
use tables::tables::Tables;

// New.
pub(crate) fn create<H: Heap>(
    program: Program,
    heap: &mut H,
    frames: &mut Frames,
    bounds: Bounds,
    c: ClassNumber,
) -> Option<Next>
    requires ready { Ready frames.old }
    ensures { Steps (meaning_of program.entry) bounds.height (instrs.New c) (H.Heap.meaning heap.old) (frames_of frames.old) result (H.Heap.meaning heap.new) (frames_of frames.new) }
{
    if !program.tables.is_class(c) {
        return None;
    }
    if frames.height() >= bounds.height {
        return None;
    }
    match add_object(program.tables, heap, c) {
        Some(a) => {
            frames.pass_with(0, Value::Addr(a));
            Some(Next::Goes)
        }
        None => raise(program, heap, frames, OUT_OF_MEMORY_AT),
    }
}

// Adds an object of class `c` with the values that its fields start with, where there is room.
pub(crate) fn add_object<H: Heap>(tables: &Tables, heap: &mut H, c: ClassNumber) -> Option<u16>
    ensures { (result, H.Heap.meaning heap.new) ≡ created (program_of tables.now) (H.Heap.meaning heap.old) c }
{
    let n = tables.row_len(c);
    if n > ROW_LIMIT {
        return None;
    }
    let mut cells = [Value::Unit; ROW_LIMIT];
    let row = &mut cells[..n];
    start_row(tables, c, row);
    append(heap, c, row)
}

// Adds an object with these values, where there is room.
fn append<H: Heap>(heap: &mut H, c: ClassNumber, row: &[Value]) -> Option<u16>
    ensures { (result, H.Heap.meaning heap.new) ≡ appended (H.Heap.meaning heap.old) c row.now }
{
    heap.add(c, row).ok()
}

// Writes the values that the fields of an object of class `c` start with: those of the class last, and so upward.
// (By hand: class, place and the steps left go down together.)
fn start_row(tables: &Tables, c: ClassNumber, row: &mut [Value])
    requires { length row.old ≡ length (start_row (program_of tables.now) c) }
    ensures { row.new ≡ start_row (program_of tables.now) c }
{
    let mut at = c;
    let mut left = c;
    let mut end = row.len();
    loop {
        let own = tables.own_fields(at);
        let start = end - own.len();
        start_own(row, start, own);
        if start == 0 {
            return;
        }
        at = tables.superclass(at);
        left -= 1;
        end = start;
    }
}

// Writes what these fields start with, from a place on.
fn start_own(row: &mut [Value], start: usize, own: &[Field])
    requires { start + length own.now ≤ length row.old }
    ensures started { Started own.now start row.new }
    ensures above { SameFrom (start + length own.now) row.old row.new }
{
    for (i, field) in own.iter().enumerate() {
        row[start + i] = start_value(field.ty);
    }
}

// What a field of this type starts with.
fn start_value(ty: Ty) -> Value
    ensures { result ≡ start_value ty }
{
    match ty {
        Ty::Void => Value::Unit,
        Ty::Boolean => Value::Bool(false),
        Ty::Integer => Value::Int(0),
        Ty::NullType | Ty::Class(_) => Value::Null,
    }
}
