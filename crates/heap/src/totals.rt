// What a heap keeps to from the moment when it is emptied.
ghost use Rattle.std.specs.Prelude.{◌≡◌};
ghost use Rattle.heap.specs.Calls.{after_empty};
ghost use Rattle.heap.specs.Totals.{KeepsLines};

use crate::store::Heap;

/// Empties a heap. From then on, whatever is added, written or emptied, no line's use passes its total.
pub fn clear<H: Heap>(heap: &mut H)
    ensures after { H.Heap.meaning heap.new ≡ after_empty (H.Heap.meaning heap.old) }
    ensures totals { KeepsLines (H.Heap.meaning heap.new) }
{
    promise(heap);
    heap.empty();
}

// What the calls of a heap keep to, once it is emptied.
fn promise<H: Heap>(heap: &H)
    ensures { KeepsLines (after_empty (H.Heap.meaning heap.now)) }
{}
