// A machine: an accepted set, a heap, and where its run stands.
use engine::frames::Frames;
use heap::store::Heap;
use jinja::answer::{Outcome, Phase};
use verifier::accepted::Accepted;

/// A machine over any heap. Its calls rest on the well-typings of the accepted set, so they ask for nothing.
#[derive(Drop)]
pub struct Machine<H: Heap> {
    pub(crate) accepted: Accepted,
    pub(crate) heap: H,
    pub(crate) frames: Frames,
    pub(crate) phase: Phase,
    /// Answered 0 since begin.
    pub(crate) steps: u64,
    pub(crate) outcome: Outcome,
    /// Of the machine, and of its tickets.
    pub(crate) number: u32,
}
