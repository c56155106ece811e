// The operand stack of a frame, through the bounded stack, and the frame's moves.
ghost use Rattle.std.specs.Prelude.{◌≡◌, suc, ◌+◌, ◌-◌, ◌<◌, ◌≤◌, ◌∷◌, length, drop, Some, None, OnSome, slice_set};
ghost use Rattle.stack.specs.Stacked.{held, Seen};
ghost use Rattle.format.specs.Limits.{max_instrs};
ghost use Rattle.jinja.specs.Classes.{maybe};
ghost use Rattle.jinja.specs.Options.{top, top_of, two, two_of};
ghost use Rattle.jinja.specs.Step.{at_place};
ghost use Rattle.engine.specs.Limits.{cell_limit};
ghost use Rattle.engine.specs.Views.{frame_of};
ghost use Rattle.engine.specs.Moving.{Onward};
ghost use Rattle.engine.specs.Calling.{arguments};

use crate::bounds::Bounds;
use crate::frame::Frame;
use heap::value::Value;
use stack::Stack;

// Puts a value on top of the lowest `keep` cells.
fn put_on(cells: &mut [Value], keep: usize, value: Value)
    requires { keep < length cells.old }
    ensures cells { cells.new ≡ slice_set cells.old keep value }
    ensures held { held cells.new (keep + 1) ≡ value ∷ held cells.old keep }
{
    let mut operands = Stack::over(cells, keep);
    let _ = operands.push(value);
}

impl Frame {
    // On to another instruction, with the lowest `keep` cells.
    pub(crate) fn go(&mut self, pc: usize, keep: usize)
        requires { keep ≤ cell_limit }
        ensures { frame_of self.new ≡ at_place (frame_of self.old) pc (held self.old.cells keep) }
    {
        self.pc = pc;
        self.height = keep;
    }

    // On to another instruction, with a value on top of the lowest `keep` cells.
    pub(crate) fn go_with(&mut self, pc: usize, keep: usize, value: Value)
        requires { keep < cell_limit }
        ensures { frame_of self.new ≡ at_place (frame_of self.old) pc (value ∷ held self.old.cells keep) }
    {
        put_on(&mut self.cells, keep, value);
        self.pc = pc;
        self.height = keep + 1;
    }

    // On to the next instruction, with a value on top of the lowest `keep` cells, if these are lower than the greatest height.
    pub(crate) fn onward(&mut self, bounds: Bounds, keep: usize, value: Value) -> Option<()>
        requires inside { self.old.pc < max_instrs }
        requires kept { keep ≤ cell_limit }
        ensures { Onward bounds.height (frame_of self.old) (held self.old.cells keep) value result (frame_of self.new) }
    {
        if keep >= bounds.height {
            return None;
        }
        self.go_with(self.pc + 1, keep, value);
        Some(())
    }

    // On to the next instruction, without the `n` topmost operands.
    pub(crate) fn pass(&mut self, n: usize)
        requires inside { self.old.pc < max_instrs }
        requires high { n ≤ self.old.height }
        ensures { frame_of self.new ≡ at_place (frame_of self.old) (suc self.old.pc) (drop n (frame_of self.old).stack) }
    {
        self.go(self.pc + 1, self.height - n);
    }

    // And with a value in their place.
    pub(crate) fn pass_with(&mut self, n: usize, value: Value)
        requires inside { self.old.pc < max_instrs }
        requires high { n ≤ self.old.height }
        requires low { self.old.height - n < cell_limit }
        ensures { frame_of self.new ≡ at_place (frame_of self.old) (suc self.old.pc) (value ∷ drop n (frame_of self.old).stack) }
    {
        self.go_with(self.pc + 1, self.height - n, value);
    }

    // The operand with `i` above it.
    pub(crate) fn operand(&self, i: usize) -> Option<Value>
        ensures { Seen self.now.cells self.now.height i result }
    {
        if i >= self.height {
            return None;
        }
        Some(self.cells[self.height - 1 - i])
    }

    // The `n` topmost operands in the order in which they were pushed.
    pub(crate) fn arguments(&self, n: usize) -> &[Value]
        requires { n ≤ self.now.height }
        ensures { result.now ≡ arguments n (frame_of self.now).stack }
    {
        &self.cells[self.height - n..self.height]
    }

    // The topmost operand.
    pub(crate) fn top(&self) -> Option<Value>
        ensures seen { top_of (frame_of self.now).stack ≡ maybe result None (λ v. Some (top v (held self.now.cells (self.now.height - 1)))) }
        ensures high { OnSome result (1 ≤ self.now.height) }
    {
        self.operand(0)
    }

    // The two topmost operands, the top first.
    pub(crate) fn two(&self) -> Option<(Value, Value)>
        ensures seen { two_of (frame_of self.now).stack ≡ maybe result None (λ p. Some (two p.0 p.1 (held self.now.cells (self.now.height - 2)))) }
        ensures high { OnSome result (2 ≤ self.now.height) }
    {
        let lower = self.operand(1)?;
        let upper = self.operand(0)?;
        Some((upper, lower))
    }
}
