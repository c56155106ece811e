// Where an instruction leads.

/// The successors of an instruction. All of them get the same row.
#[derive(Clone, Copy)]
pub enum Leads {
    /// It has none.
    Nowhere,
    /// The next instruction.
    Next,
    /// The instruction at this place.
    To(usize),
    /// The next instruction, and the one at this place.
    Either(usize),
}
