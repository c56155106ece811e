// The allowance: a heap made over any other, with one line more.
ghost use Rattle.std.specs.Prelude.{◌≡◌, ◌≤◌};
ghost use Rattle.heap.specs.Limits.{word_limit};
ghost use Rattle.heap.specs.Calls.{under, after_empty};
ghost use Rattle.heap.specs.AllowanceLawful.{under_lawful};

use crate::charge::ChargeLine;
use crate::fault::HeapFault;
use crate::limits::ROW_LIMIT;
use crate::store::Heap;
use crate::usage::used;
use crate::value::Value;

/// A heap over a lower heap: it shows the lower heap's objects, and its own line stands in front of the lower heap's.
#[derive(Drop)]
pub struct Allowance<L: Heap> {
    lower: L,
    own: ChargeLine,
    ghost fixed: { own.fixed ≤ word_limit },
    ghost field: { own.per_field ≤ word_limit },
    ghost total: { own.total ≤ word_limit },
}

impl<L: Heap> Allowance<L> {
    /// Empties the lower heap, and puts it under one line more. Any line will do, (0, 0, 0) and (1, 0, 0) too.
    pub fn new(mut lower: L, line: ChargeLine) -> Allowance<L>
        ensures { under result.own (L.Heap.meaning result.lower) ≡ under line (after_empty (L.Heap.meaning lower)) }
    {
        lower.empty();
        Allowance { lower, own: line }
    }
}

impl<L: Heap> Heap for Allowance<L> {
    ghost meaning = { λ s. under s.own (L.Heap.meaning s.lower) };

    ghost lawful = { λ s. under_lawful s.own (L.Heap.meaning s.lower) (record { fixed = s.fixed; per_field = s.field; total = s.total }) (L.Heap.lawful s.lower) };

    fn add(&mut self, class: u8, row: &[Value]) -> Result<u16, HeapFault> {
        let n = row.len();
        if n > ROW_LIMIT
            || used(&self.lower, self.own) + self.own.cost(n) > self.own.total as usize
        {
            return Err(HeapFault::Full);
        }
        self.lower.add(class, row)
    }

    fn empty(&mut self) {
        self.lower.empty();
    }

    fn count(&self) -> u16 {
        self.lower.count()
    }

    fn class(&self, addr: u16) -> Result<u8, HeapFault> {
        self.lower.class(addr)
    }

    fn row_len(&self, addr: u16) -> Result<usize, HeapFault> {
        self.lower.row_len(addr)
    }

    fn read(&self, addr: u16, field: usize) -> Result<Value, HeapFault> {
        self.lower.read(addr, field)
    }

    fn write(&mut self, addr: u16, field: usize, value: Value) -> Result<(), HeapFault> {
        self.lower.write(addr, field, value)
    }

    fn line(&self, position: usize) -> Option<ChargeLine> {
        match position {
            0 => Some(self.own),
            _ => self.lower.line(position - 1),
        }
    }
}
