// A code of at most as many steps as a walk has nodes.
ghost use Rattle.std.specs.Prelude.{◌≡◌, ◌≤◌, min, length, take};
ghost use Rattle.walk.specs.Limits.{most_nodes};
ghost use Rattle.walk_heights.specs.Steps.{step_of};

use walk::NODES;

/// What a step does.
#[derive(Clone, Copy, PartialEq, Eq, Debug)]
pub enum Step {
    /// Takes a cell, and goes on to this step or to the next.
    Branch(u8),
    /// Puts a cell on, and goes on to the next step.
    Push,
}

impl From<u16> for Step {
    ghost from_gives = { λ n s. s ≡ step_of n };

    fn from(n: u16) -> Step {
        match u8::try_from(n) {
            Ok(to) => Step::Branch(to),
            Err(_) => Step::Push,
        }
    }
}

/// Steps that push one cell or branch on one: a number below 256 is a branch to that step or the next, any other a push.
#[derive(Clone, Copy)]
pub struct Code<'a> {
    pub(crate) steps: &'a [u16],
    ghost few: { length steps.now ≤ most_nodes },
}

impl<'a> Code<'a> {
    /// The code of the first steps, as many as a walk has nodes.
    pub fn new(steps: &'a [u16]) -> Code<'a>
        ensures { result.steps.now ≡ take (min (length steps.now) most_nodes) steps.now }
    {
        let n = steps.len().min(NODES);
        Code { steps: &steps[..n] }
    }
}
