// New frames, written in place: only what the method has is set.
ghost use Rattle.std.specs.Prelude.{◌≡◌, ◌+◌, ◌<◌, ◌≤◌, [], ◌∷◌, ◌++◌, length, take, drop, replicate, slice_index_or, slice_set};
ghost use Rattle.heap.specs.declared.value.Value.TheVariants.{Unit as unit};
ghost use Rattle.jinja.specs.Step.{frame_limit};
ghost use Rattle.engine.specs.Limits.{register_limit};
ghost use Rattle.engine.specs.Ready.{Ready};
ghost use Rattle.engine.specs.Views.{frame_of, lowest_frames, frames_of};
ghost use Rattle.engine.specs.Stepping.{top_stack};
ghost use Rattle.engine.specs.Calling.{arguments, fresh};

use crate::frame::{CELLS, Frame, REGISTERS};
use crate::frames::{Frames, MAX_FRAMES};
use heap::value::Value;

impl Frames {
    /// No frame.
    pub fn empty() -> Frames
        ensures { frames_of result ≡ [] }
    {
        let frame = Frame {
            method: 0,
            pc: 0,
            height: 0,
            cells: [Value::Unit; CELLS],
            register_count: 0,
            registers: [Value::Unit; REGISTERS],
        };
        Frames {
            frames: [frame; MAX_FRAMES],
            count: 0,
        }
    }

    /// Leaves no frame.
    pub fn clear(&mut self)
        ensures { frames_of self.new ≡ [] }
    {
        self.count = 0;
    }

    // A frame of the method `k` alone, for this object and these arguments.
    pub(crate) fn open_first(&mut self, k: usize, this: u16, args: &[Value], extras: usize)
        requires { 1 + length args.now + extras ≤ register_limit }
        ensures { frames_of self.new ≡ fresh k this args.now extras ∷ [] }
    {
        open_lowest(&mut self.frames, k, this, args, extras);
        self.count = 1;
    }

    // A frame of the method `k` on top, for this object and the `n` topmost operands of the frame below.
    #[inline(always)]
    pub(crate) fn open_above(&mut self, k: usize, this: u16, n: usize, extras: usize)
        requires ready { Ready self.old }
        requires room { length (frames_of self.old) < frame_limit }
        requires high { n ≤ length (top_stack (frames_of self.old)) }
        requires few { 1 + n + extras ≤ register_limit }
        ensures { frames_of self.new ≡ fresh k this (arguments n (top_stack (frames_of self.old))) extras ∷ frames_of self.old }
    {
        open_at(&mut self.frames, self.count, k, this, n, extras);
        self.count += 1;
    }
}

// The lowest frame is one of the method `k`, for this object and these arguments.
fn open_lowest(frames: &mut [Frame], k: usize, this: u16, args: &[Value], extras: usize)
    requires some { 0 < length frames.old }
    requires few { 1 + length args.now + extras ≤ register_limit }
    ensures { lowest_frames frames.new 1 ≡ fresh k this args.now extras ∷ [] }
{
    frames[0].open(k, this, args, extras);
}

// The frame at `at` is one of the method `k`, for this object and the `n` topmost operands of the frame below.
#[inline(always)]
fn open_at(frames: &mut [Frame], at: usize, k: usize, this: u16, n: usize, extras: usize)
    requires some { 0 < at }
    requires within { at < length frames.old }
    requires high { n ≤ length (top_stack (lowest_frames frames.old at)) }
    requires few { 1 + n + extras ≤ register_limit }
    ensures after { lowest_frames frames.new (at + 1) ≡ fresh k this (arguments n (top_stack (lowest_frames frames.old at))) extras ∷ lowest_frames frames.old at }
    ensures below { take at frames.new ≡ take at frames.old }
{
    let (below, above) = frames.split_at_mut(at);
    above[0].open(k, this, below[at - 1].arguments(n), extras);
}

impl Frame {
    // The frame of a method at its first instruction, for this object and these arguments.
    #[inline(always)]
    fn open(&mut self, k: usize, this: u16, args: &[Value], extras: usize)
        requires { 1 + length args.now + extras ≤ register_limit }
        ensures { frame_of self.new ≡ fresh k this args.now extras }
    {
        let given = 1 + args.len();
        self.method = k;
        self.pc = 0;
        self.height = 0;
        self.register_count = given + extras;
        let registers: &mut [Value] = &mut self.registers;
        registers[0] = Value::Addr(this);
        registers[1..given].copy_from_slice(args);
        registers[given..given + extras].fill(Value::Unit);
    }
}
