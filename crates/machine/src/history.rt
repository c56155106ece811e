// Whole histories of calls, and the promise about them.
ghost use Rattle.std.specs.Prelude.{◌≡◌, ◌<◌, ◌≤◌, length, MatchResult};
ghost use Rattle.verifier.specs.Accepted.{accepted_program};
ghost use Rattle.machine.specs.States.{program, state};
ghost use Rattle.machine.specs.Histories.{Told};

use crate::call::Call;
use crate::machine::Machine;
use crate::short::Short;
use heap::store::Heap;
use jinja::answer::Reply;
use verifier::accepted::Accepted;

/// Makes a machine and performs every call on it, in order, whatever they are: each answer is handed out, and the
/// promise about histories holds of what comes back. Refused with 10 where there are fewer places for replies than
/// calls: the heap is handed back, and no reply is written.
pub fn history<H: Heap>(
    accepted: Accepted,
    heap: H,
    number: u32,
    calls: &[Call],
    replies: &mut [Reply],
) -> Result<Machine<H>, Short<H>>
    ensures { MatchResult result (λ m. (length calls.now ≤ length replies.old) × (program m ≡ accepted_program accepted) × Told (accepted_program accepted) (H.Heap.meaning heap) number calls.now replies.old replies.new (state H.Heap.meaning m)) (λ s. (length replies.old < length calls.now) × (s.heap ≡ heap) × (replies.new ≡ replies.old)) }
{
    if replies.len() < calls.len() {
        return Err(Short { heap });
    }
    let mut machine = Machine::make(accepted, heap, number);
    for (i, call) in calls.iter().enumerate() {
        replies[i] = machine.perform(*call);
    }
    Ok(machine)
}
