// What a heap's objects cost on a charge line.
ghost use Rattle.std.specs.Prelude.{◌≡◌, ◌*◌, ◌≤◌};
ghost use Rattle.heap.specs.Limits.{word_limit};
ghost use Rattle.heap.specs.Meaning.{used};
ghost use Rattle.heap.specs.Lawful.{cost_limit};

use crate::charge::ChargeLine;
use crate::store::Heap;

/// The use of a line: what the heap's objects cost on it together.
pub fn used<H: Heap>(heap: &H, line: ChargeLine) -> usize
    ensures value { result ≡ used line (H.Heap.meaning heap.now).objects }
    ensures bound { result ≤ cost_limit * word_limit }
{
    let mut sum = 0;
    // By address, as a heap is asked: a chain of closures over the same calls would be no plainer.
    for addr in 0..heap.count() {
        if let Ok(n) = heap.row_len(addr) {
            sum += line.cost(n);
        }
    }
    sum
}
