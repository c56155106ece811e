// What objects cost.
ghost use Rattle.std.specs.Prelude.{◌≡◌, ◌≤◌};
ghost use Rattle.heap.specs.Limits.{row_limit};
ghost use Rattle.heap.specs.Meaning.{cost};
ghost use Rattle.heap.specs.Lawful.{cost_limit};

/// A charge line: what one object costs against one budget, and how much that budget holds. An object of `n` fields
/// costs `fixed + per_field * n`, and the objects of a heap together cost at most `total`.
#[derive(Clone, Copy)]
pub struct ChargeLine {
    pub fixed: u16,
    pub per_field: u16,
    pub total: u16,
}

impl ChargeLine {
    // What an object of `n` fields costs.
    pub(crate) fn cost(self, n: usize) -> usize
        requires { n ≤ row_limit }
        ensures value { result ≡ cost self n }
        ensures bound { result ≤ cost_limit }
    {
        self.fixed as usize + self.per_field as usize * n
    }
}
