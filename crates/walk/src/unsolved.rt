// Why a walk leaves no solution.

/// Why the rows of a workspace are no solution after a walk.
#[derive(Clone, Copy, PartialEq, Eq, Debug)]
pub enum Unsolved {
    /// There is no solution: some node refuses every row that it could have.
    Refused,
    /// The workspace is too short for a row a node, and untouched.
    Short,
}
