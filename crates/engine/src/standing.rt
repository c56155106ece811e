// The frames that stand: what a move of the top one leaves of the others.
ghost use Rattle.std.specs.Prelude.{◌≡◌, ◌+◌, ◌-◌, ◌<◌, ◌≤◌, length, take};
ghost use Rattle.std.specs.List.{slice_get};
ghost use Rattle.format.specs.Limits.{max_instrs};
ghost use Rattle.engine.specs.Limits.{cell_limit};
ghost use Rattle.engine.specs.Ready.{Ready};
ghost use Rattle.engine.specs.Views.{lowest_frames, frames_of};
ghost use Rattle.engine.specs.Stepping.{top_method, top_pc, top_stack, past, past_with, StepsLocally};

use crate::bounds::Bounds;
use crate::frame::Frame;
use crate::frames::Frames;
use crate::next::Next;
use heap::store::Heap;
use heap::value::Value;
use jinja::instr::Instr;

// Each move stands over a slice of frames too: a `&mut` call on an element of a field got no proof.

// An instruction that moves the frame at `top` alone.
fn local_at<H: Heap>(
    _heap: &H,
    frames: &mut [Frame],
    top: usize,
    bounds: Bounds,
    instr: Instr,
) -> Option<Next>
    requires top { top < length frames.old }
    requires inside { top_pc (lowest_frames frames.old (top + 1)) < max_instrs }
    ensures after { StepsLocally bounds.height bounds.size instr (lowest_frames frames.old (top + 1)) result (lowest_frames frames.new (top + 1)) }
    ensures below { take top frames.new ≡ take top frames.old }
{
    frames[top].local(_heap, bounds, instr)?;
    Some(Next::Goes)
}

// The frame at `top` goes on without its `n` topmost operands.
fn pass_at(frames: &mut [Frame], top: usize, n: usize)
    requires top { top < length frames.old }
    requires inside { top_pc (lowest_frames frames.old (top + 1)) < max_instrs }
    requires high { n ≤ length (top_stack (lowest_frames frames.old (top + 1))) }
    ensures after { lowest_frames frames.new (top + 1) ≡ past n (lowest_frames frames.old (top + 1)) }
    ensures below { take top frames.new ≡ take top frames.old }
{
    frames[top].pass(n);
}

// And with a value in their place.
fn pass_with_at(frames: &mut [Frame], top: usize, n: usize, value: Value)
    requires top { top < length frames.old }
    requires inside { top_pc (lowest_frames frames.old (top + 1)) < max_instrs }
    requires high { n ≤ length (top_stack (lowest_frames frames.old (top + 1))) }
    requires low { length (top_stack (lowest_frames frames.old (top + 1))) - n < cell_limit }
    ensures after { lowest_frames frames.new (top + 1) ≡ past_with n value (lowest_frames frames.old (top + 1)) }
    ensures below { take top frames.new ≡ take top frames.old }
{
    frames[top].pass_with(n, value);
}

impl Frames {
    // The number of the top frame's method.
    pub(crate) fn method(&self) -> usize
        requires { 0 < self.now.count }
        ensures { result ≡ top_method (frames_of self.now) }
    {
        self.frames[self.count - 1].method
    }

    // Where the top frame stands in its code.
    pub(crate) fn pc(&self) -> usize
        requires { 0 < self.now.count }
        ensures { result ≡ top_pc (frames_of self.now) }
    {
        self.frames[self.count - 1].pc
    }

    // The operand of the top frame with `i` above it.
    pub(crate) fn operand(&self, i: usize) -> Option<Value>
        ensures { result ≡ slice_get (top_stack (frames_of self.now)) i }
    {
        if self.count == 0 {
            return None;
        }
        self.frames[self.count - 1].operand(i)
    }

    // How many operands the top frame has.
    pub(crate) fn height(&self) -> usize
        ensures height { result ≡ length (top_stack (frames_of self.now)) }
        ensures low { result ≤ cell_limit }
    {
        if self.count == 0 {
            return 0;
        }
        self.frames[self.count - 1].height
    }

    // The top frame goes on without its `n` topmost operands.
    pub(crate) fn pass(&mut self, n: usize)
        requires ready { Ready self.old }
        requires high { n ≤ length (top_stack (frames_of self.old)) }
        ensures { frames_of self.new ≡ past n (frames_of self.old) }
    {
        pass_at(&mut self.frames, self.count - 1, n);
    }

    // And with a value in their place.
    pub(crate) fn pass_with(&mut self, n: usize, value: Value)
        requires ready { Ready self.old }
        requires high { n ≤ length (top_stack (frames_of self.old)) }
        requires low { length (top_stack (frames_of self.old)) - n < cell_limit }
        ensures { frames_of self.new ≡ past_with n value (frames_of self.old) }
    {
        pass_with_at(&mut self.frames, self.count - 1, n, value);
    }

    // An instruction that moves the top frame alone, of a method with these bounds.
    // Any heap is handed through, so that each kind of machine has its whole step in one function: with one function for
    // all heaps a step of the counting loop took 17 ns in place of 8.
    pub(crate) fn local<H: Heap>(&mut self, _heap: &H, bounds: Bounds, instr: Instr) -> Option<Next>
        requires ready { Ready self.old }
        ensures { StepsLocally bounds.height bounds.size instr (frames_of self.old) result (frames_of self.new) }
    {
        local_at(_heap, &mut self.frames, self.count - 1, bounds, instr)
    }
}
