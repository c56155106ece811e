// Filling a heap, whichever it is: proved once, from what every heap promises.
ghost use Rattle.std.specs.Prelude.{◌≡◌, false, length};
ghost use Rattle.heap.specs.Meaning.{admits};
ghost use Rattle.heap.specs.Totals.{WithinTotals};
ghost use Rattle.heap_demo.specs.Filled.{holding};

use heap::store::Heap;
use heap::totals::clear;
use heap::value::Value;

/// Empties a heap, adds one object again and again until it is refused, and answers how many were taken. No line's use
/// passes its total, and one object more would.
pub fn fill_to_limit<H: Heap>(heap: &mut H, class: u8, row: &[Value]) -> u16
    ensures after { H.Heap.meaning heap.new ≡ holding (H.Heap.meaning heap.old).lines result class row.now }
    ensures full { admits (H.Heap.meaning heap.new) (length row.now) ≡ false }
    ensures within { WithinTotals (H.Heap.meaning heap.new) }
{
    clear(heap);
    // What was taken is counted, and no place: a chain over calls that change the heap would be no plainer.
    let mut taken = 0;
    while heap.add(class, row).is_ok() {
        taken += 1;
    }
    taken
}
