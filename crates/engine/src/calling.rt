// Invoke: the method that the receiver's class sees, in a frame of its own.
ghost use Rattle.std.specs.Prelude.{◌≡◌, ◌+◌, ◌<◌, ◌≤◌, length};
ghost use Rattle.heap.specs.Meaning.{Meaning};
ghost use Rattle.jinja.specs.declared.instr.Instr.TheVariants as instrs;
ghost use Rattle.jinja.specs.Lookups.{Owned};
ghost use Rattle.jinja.specs.Values.{fit_all};
ghost use Rattle.tables.specs.Views.{program_of};
ghost use Rattle.engine.specs.Limits.{register_limit};
ghost use Rattle.engine.specs.Ready.{Ready};
ghost use Rattle.engine.specs.Views.{frames_of, meaning_of};
ghost use Rattle.engine.specs.Stepping.{top_stack, settle, Steps};
ghost use Rattle.engine.specs.Calling.{arguments, fresh, call_top, above};

use crate::fitting::fit_all;
use crate::frames::{Frames, MAX_FRAMES};
use crate::next::Next;
use crate::objects::{class_at, raise};
use crate::program::Program;
use crate::references::NULL_POINTER_AT;
use heap::store::Heap;
use heap::value::Value;
use jinja::program::Name;
use jinja::ty::Ty;
use tables::tables::Tables;

// Invoke with `n` arguments.
#[inline(always)]
pub(crate) fn invoke<H: Heap>(
    program: Program,
    heap: &H,
    frames: &mut Frames,
    height: usize,
    name: Name,
    n: u8,
) -> Option<Next>
    requires ready { Ready frames.old }
    ensures { Steps (meaning_of program.entry) height (instrs.Invoke name n) (H.Heap.meaning heap.now) (frames_of frames.old) result (H.Heap.meaning heap.now) (frames_of frames.new) }
{
    let receiver = frames.operand(n as usize)?;
    match receiver {
        Value::Null => raise(program, heap, frames, NULL_POINTER_AT),
        Value::Addr(a) => call(program, heap, frames, height, name, n as usize, a),
        Value::Unit => None,
        Value::Bool(_) => None,
        Value::Int(_) => None,
    }
}

// The object at `a` is called with `n` arguments.
#[inline(always)]
fn call<H: Heap>(
    program: Program,
    heap: &H,
    frames: &mut Frames,
    height: usize,
    name: Name,
    n: usize,
    a: u16,
) -> Option<Next>
    requires ready { Ready frames.old }
    requires high { n < length (top_stack (frames_of frames.old)) }
    ensures { (M : Owned) → M.method.height ≡ height → (result, H.Heap.meaning heap.now, frames_of frames.new) ≡ settle (H.Heap.meaning heap.now) (frames_of frames.old) (call_top (meaning_of program.entry) (H.Heap.meaning heap.now) name n a M (frames_of frames.old)) }
{
    let c = class_at(heap, a)?;
    let k = program.tables.sees(c, name)?;
    let method = program.tables.method(k)?;
    if !frames.arguments_fit(program.tables, heap, n, program.tables.params_from(method)) {
        return None;
    }
    if frames.height() - (n + 1) >= height {
        return None;
    }
    frames.enter(k, a, n, method.extras as usize)
}

impl Frames {
    // Whether the `n` topmost operands fit the types, in the order in which they were pushed.
    #[inline(always)]
    fn arguments_fit<H: Heap>(&self, tables: &Tables, heap: &H, n: usize, types: &[Ty]) -> bool
        requires some { 0 < self.now.count }
        requires high { n ≤ length (top_stack (frames_of self.now)) }
        ensures { result ≡ fit_all (program_of tables.now) (H.Heap.meaning heap.now) (arguments n (top_stack (frames_of self.now))) types.now }
    {
        let operands = self.frames[self.count - 1].arguments(n);
        fit_all(tables, heap, operands, types)
    }

    // A frame of the method `k` on top, for this object and the `n` topmost operands, where there is room.
    #[inline(always)]
    fn enter(&mut self, k: usize, this: u16, n: usize, extras: usize) -> Option<Next>
        requires ready { Ready self.old }
        requires high { n ≤ length (top_stack (frames_of self.old)) }
        requires few { 1 + n + extras ≤ register_limit }
        ensures { (h : Meaning) → (result, h, frames_of self.new) ≡ settle h (frames_of self.old) (above h (fresh k this (arguments n (top_stack (frames_of self.old))) extras) (frames_of self.old)) }
    {
        if self.standing() >= MAX_FRAMES {
            return Some(Next::FramesFull);
        }
        self.open_above(k, this, n, extras);
        Some(Next::Goes)
    }
}
