// The ticket of a run.

/// A ticket: begin hands it out and only an accepted end takes it back, so that each run is ended once. It cannot be
/// dropped or copied.
pub struct Ticket {
    /// The number of the machine that handed it out.
    pub(crate) machine: u32,
}
