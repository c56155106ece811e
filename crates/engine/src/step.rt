// One step: the instruction of the top frame.
ghost use Rattle.std.specs.Prelude.{◌≡◌, ◌<◌, ◌≤◌};
ghost use Rattle.jinja.specs.Lookups.{Owned};
ghost use Rattle.jinja.specs.Step.{next_step};
ghost use Rattle.set.specs.Sets.{set_program};
ghost use Rattle.engine.specs.Limits.{cell_limit};
ghost use Rattle.engine.specs.Ready.{Ready};
ghost use Rattle.engine.specs.Views.{frames_of, meaning_of};
ghost use Rattle.engine.specs.Stepping.{exec_top, settle, Recorded};

use crate::bounds::Bounds;
use crate::calling::invoke;
use crate::creating::create;
use crate::fields::getfield;
use crate::frames::Frames;
use crate::next::Next;
use crate::program::Program;
use crate::putting::putfield;
use crate::references::{checkcast, throw};
use crate::returning::return_value;
use heap::store::Heap;
use jinja::instr::Instr;
use set::set::Set;
use tables::records::MethodRec;

/// One step of the top frame, and what it comes to. Only a step that goes on changes heap and frames.
pub fn step<H: Heap>(set: &Set, heap: &mut H, frames: &mut Frames) -> Option<Next>
    ensures { (result, H.Heap.meaning heap.new, frames_of frames.new) ≡ settle (H.Heap.meaning heap.old) (frames_of frames.old) (next_step (set_program set.now) (H.Heap.meaning heap.old) (frames_of frames.old)) }
{
    step_in(Program::of(set), heap, frames)
}

// By the tables of a set. Method and code are looked up once.
fn step_in<H: Heap>(program: Program, heap: &mut H, frames: &mut Frames) -> Option<Next>
    ensures { (result, H.Heap.meaning heap.new, frames_of frames.new) ≡ settle (H.Heap.meaning heap.old) (frames_of frames.old) (next_step (meaning_of program.entry) (H.Heap.meaning heap.old) (frames_of frames.old)) }
{
    if frames.count == 0 {
        return None;
    }
    let k = frames.method();
    let method = program.tables.method(k)?;
    let code = program.tables.code_of(k);
    let pc = frames.pc();
    if pc >= code.len() {
        return None;
    }
    exec(program, heap, frames, method, code.len(), code[pc])
}

// An instruction of a method of this record and so many instructions. (Heap and frames stay two parameters: a struct of two
// `&mut` would have to say in each contract that both still stand at the same place.)
fn exec<H: Heap>(
    program: Program,
    heap: &mut H,
    frames: &mut Frames,
    method: MethodRec,
    size: usize,
    instr: Instr,
) -> Option<Next>
    requires ready { Ready frames.old }
    requires low { method.height ≤ cell_limit }
    ensures { (M : Owned) → Recorded M method size → (result, H.Heap.meaning heap.new, frames_of frames.new) ≡ settle (H.Heap.meaning heap.old) (frames_of frames.old) (exec_top (meaning_of program.entry) instr (H.Heap.meaning heap.old) M (frames_of frames.old)) }
{
    let height = method.height as usize;
    let bounds = Bounds { height, size };
    match instr {
        Instr::New(c) => create(program, heap, frames, bounds, c),
        Instr::Getfield(name, c) => getfield(program, heap, frames, height, name, c),
        Instr::Putfield(name, c) => putfield(program, heap, frames, height, name, c),
        Instr::Checkcast(c) => checkcast(program, heap, frames, height, c),
        Instr::Invoke(name, n) => invoke(program, heap, frames, height, name, n),
        Instr::Return => { return_value(program, heap, frames, method.result, method.params.count) }
        Instr::Throw => throw(program, heap, frames, height),
        _ => frames.local(heap, bounds, instr),
    }
}
