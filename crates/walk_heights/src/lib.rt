//! How high the stack is before each step of a code, as an analysis of the walk.
#![tactic(auto)]

ghost use Rattle.walk.specs.Answers.{Answers};
ghost use Rattle.walk_heights.specs.HeightLaws.{height_framework};

mod code;
mod height;

pub use code::Code;
use code::Step;
use height::{HIGHEST, Height};
use walk::{Analysis, Unsolved, WIDTH, walk};

impl<'a> Analysis for Code<'a> {
    ghost framework = { λ s. height_framework s.steps.now s.few };

    fn count(&self) -> usize {
        self.steps.len()
    }

    fn bottom(&self, out: &mut [u16; WIDTH]) {
        out[0] = Height::Unreached.into();
    }

    fn start(&self, out: &mut [u16; WIDTH]) {
        out[0] = Height::Tall(0).into();
    }

    fn join(&self, row: &mut [u16], other: &[u16]) -> bool {
        let before = Height::from(row[0]);
        let after = before.join(Height::from(other[0]));
        row[0] = after.into();
        after != before
    }

    fn refuses(&self, i: usize, row: &[u16]) -> bool {
        match (Height::from(row[0]), Step::from(self.steps[i])) {
            (Height::Unreached, _) => false,
            (Height::Tall(h), Step::Branch(_)) => h == 0,
            (Height::Tall(h), Step::Push) => h >= HIGHEST,
            (Height::Clash, _) => true,
        }
    }

    fn edges(&self, i: usize) -> usize {
        2
    }

    fn send(&self, i: usize, e: usize, row: &[u16], out: &mut [u16; WIDTH]) -> Option<usize> {
        let Height::Tall(h) = Height::from(row[0]) else {
            return None;
        };
        let (k, after) = match (e, Step::from(self.steps[i])) {
            (0, Step::Branch(_)) => (i + 1, h - 1),
            (0, Step::Push) => (i + 1, h + 1),
            (_, Step::Branch(to)) => (usize::from(to), h - 1),
            (_, Step::Push) => return None,
        };
        if k >= self.steps.len() {
            return None;
        }
        out[0] = Height::Tall(after).into();
        Some(k)
    }
}

/// The height before each step, from an empty stack: one row a step, whose first number is 0 or 1 + the height.
pub fn stack_heights(code: &Code, workspace: &mut [u16]) -> Result<(), Unsolved>
    ensures { Answers (height_framework code.now.steps.now code.now.few) workspace.old workspace.new result }
{
    walk(code, workspace)
}

#[cfg(test)]
mod tests;
