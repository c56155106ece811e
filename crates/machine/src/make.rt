// How a machine begins.
ghost use Rattle.std.specs.Prelude.{◌≡◌};
ghost use Rattle.jinja.specs.State.{made};
ghost use Rattle.machine.specs.States.{program, state};
ghost use Rattle.verifier.specs.Accepted.{accepted_program};

use crate::machine::Machine;
use engine::frames::Frames;
use heap::store::Heap;
use jinja::answer::{Outcome, Phase};
use verifier::accepted::Accepted;

impl<H: Heap> Machine<H> {
    /// A machine of that number, idle. The heap is emptied.
    pub fn make(accepted: Accepted, mut heap: H, number: u32) -> Machine<H>
        ensures state { state H.Heap.meaning result ≡ made (H.Heap.meaning heap) number }
        ensures program { program result ≡ accepted_program accepted }
    {
        heap.empty();
        Machine {
            accepted,
            heap,
            frames: Frames::empty(),
            phase: Phase::Idle,
            steps: 0,
            outcome: Outcome::Nothing,
            number,
        }
    }
}
