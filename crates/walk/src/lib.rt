//! One walk to a fixed point, over any rows with a join.
#![tactic(auto)]

ghost use Rattle.std.specs.Prelude.{◌≡◌};
ghost use Rattle.walk.specs.Answers.{Answers};
ghost use Rattle.walk.specs.Rows.{rest};

mod analysis;
mod marks;
mod unsolved;
mod walking;

pub use analysis::Analysis;
pub use unsolved::Unsolved;
use walking::Walk;

/// How many numbers a row has.
pub const WIDTH: usize = 33;

/// How many nodes there may be.
pub const NODES: usize = 256;

/// How many numbers the rows of all nodes have.
pub const WORKSPACE: usize = NODES * WIDTH;

/// Walks the nodes of `a` until their rows are settled. On `Ok` the rows at the front of the workspace are the least
/// solution; where there is none, they are of no use. What lies behind the rows stays.
pub fn walk<A: Analysis>(a: &A, workspace: &mut [u16]) -> Result<(), Unsolved>
    ensures answer { Answers (A.Analysis.framework a.now) workspace.old workspace.new result }
    ensures behind { rest (A.Analysis.framework a.now) workspace.new ≡ rest (A.Analysis.framework a.now) workspace.old }
{
    let n = a.count();
    if workspace.len() < n * WIDTH {
        return Err(Unsolved::Short);
    }
    if n == 0 {
        return Ok(());
    }
    Walk::begin(a, workspace).settle()
}
