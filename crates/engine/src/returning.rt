// Return: the frame below gives arguments and receiver for the value, and goes on behind its Invoke.
ghost use Rattle.std.specs.Prelude.{◌≡◌, ◌+◌, ◌-◌, ◌<◌, ◌≤◌, List, [], ◌∷◌, length, MatchBool};
ghost use Rattle.heap.specs.Meaning.{Meaning};
ghost use Rattle.jinja.specs.Lookups.{Owned};
ghost use Rattle.jinja.specs.declared.instr.Instr.TheVariants as instrs;
ghost use Rattle.jinja.specs.Step.{Frame as Activation, return_to};
ghost use Rattle.engine.specs.Limits.{cell_limit};
ghost use Rattle.engine.specs.Views.{frame_of, frames_of, meaning_of};
ghost use Rattle.engine.specs.Stepping.{top_stack, past_with, exec_top, settle};
ghost use Rattle.engine.specs.Calling.{below, Resumes};

use crate::fitting::fits;
use crate::frame::Frame;
use crate::frames::Frames;
use crate::next::Next;
use crate::program::Program;
use heap::store::Heap;
use heap::value::Value;
use jinja::ty::Ty;

// Return from a method of this result type and so many parameters.
pub(crate) fn return_value<H: Heap>(
    program: Program,
    heap: &H,
    frames: &mut Frames,
    res: Ty,
    params: usize,
) -> Option<Next>
    requires some { 0 < frames.old.count }
    ensures { (M : Owned) → M.method.result ≡ res → length M.method.params ≡ params → (result, H.Heap.meaning heap.now, frames_of frames.new) ≡ settle (H.Heap.meaning heap.now) (frames_of frames.old) (exec_top (meaning_of program.entry) instrs.Return (H.Heap.meaning heap.now) M (frames_of frames.old)) }
{
    let v = frames.operand(0)?;
    if !fits(program.tables, heap, v, res) {
        return None;
    }
    hand_back(program, frames, v, params)
}

// The value goes to the frame below the top one, which called with `n` arguments.
fn hand_back(program: Program, frames: &mut Frames, v: Value, n: usize) -> Option<Next>
    requires some { 0 < frames.old.count }
    ensures { (h : Meaning) → (result, h, frames_of frames.new) ≡ settle h (frames_of frames.old) (return_to (meaning_of program.entry) h v n (below (frames_of frames.old))) }
{
    if frames.is_last() {
        return Some(Next::Returned(v));
    }
    frames.caller_resumes(program, n)?;
    frames.leave(n + 1, v);
    Some(Next::Goes)
}

impl Frames {
    // Whether no frame waits.
    fn is_last(&self) -> bool
        requires { 0 < self.now.count }
        ensures { MatchBool result (below (frames_of self.now) ≡ []) (2 ≤ self.now.count) }
    {
        self.count == 1
    }

    // Whether the frame below the top one can take a value for `n` arguments and the receiver.
    fn caller_resumes(&self, program: Program, n: usize) -> Option<()>
        requires some { 2 ≤ self.now.count }
        ensures { Resumes (meaning_of program.entry) n (below (frames_of self.now)) result }
    {
        resumes(program, &self.frames[self.count - 2], n)
    }

    // Without the top frame, the one below goes on with a value for its `n` topmost operands.
    fn leave(&mut self, n: usize, v: Value)
        requires some { 2 ≤ self.old.count }
        requires high { n ≤ length (top_stack (below (frames_of self.old))) }
        requires low { length (top_stack (below (frames_of self.old))) - n < cell_limit }
        ensures { frames_of self.new ≡ past_with n v (below (frames_of self.old)) }
    {
        self.count -= 1;
        self.pass_with(n, v);
    }
}

// Whether this frame can take a value for `n` arguments and the receiver.
fn resumes(program: Program, frame: &Frame, n: usize) -> Option<()>
    ensures { (rest : List Activation) → Resumes (meaning_of program.entry) n (frame_of frame.now ∷ rest) result }
{
    let method = program.tables.method(frame.method)?;
    if n >= frame.height {
        return None;
    }
    if frame.height - (n + 1) >= method.height as usize {
        return None;
    }
    Some(())
}
