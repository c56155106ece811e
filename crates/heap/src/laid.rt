// A heap by its layout: what every heap answers alike, over what its layout stores.
ghost use Rattle.std.specs.Prelude.{◌≡◌, [], ◌∷◌};
ghost use Rattle.heap.specs.Calls.{has_object, has_field, vacant};

use crate::charge::ChargeLine;
use crate::fault::HeapFault;
use crate::layout::Layout;
use crate::limits::ROW_LIMIT;
use crate::store::Heap;
use crate::value::Value;

/// The heap that a layout makes: it refuses what the layout has no object, field or room for.
#[derive(Drop)]
pub struct Laid<L: Layout> {
    layout: L,
}

impl<L: Layout> Laid<L> {
    /// A heap with no object.
    pub fn new() -> Laid<L>
        ensures { L.meaning result.layout ≡ vacant (L.line ∷ []) }
    {
        Laid {
            layout: L::vacant(),
        }
    }

    // Whether an object stands at an address, and whether it has a field.
    fn has_object(&self, addr: u16) -> bool
        ensures { result ≡ has_object (L.meaning self.now.layout) addr }
    {
        addr < self.layout.count()
    }

    fn has_field(&self, addr: u16, field: usize) -> bool
        ensures { result ≡ has_field (L.meaning self.now.layout) addr field }
    {
        self.has_object(addr) && field < self.layout.len_at(addr)
    }
}

impl<L: Layout> Heap for Laid<L> {
    ghost meaning = { λ s. L.meaning s.layout };

    ghost lawful = { λ s. L.lawful s.layout };

    fn add(&mut self, class: u8, row: &[Value]) -> Result<u16, HeapFault> {
        if row.len() > ROW_LIMIT || !self.layout.has_room(row.len()) {
            return Err(HeapFault::Full);
        }
        let addr = self.layout.count();
        self.layout.push(class, row);
        Ok(addr)
    }

    fn empty(&mut self) {
        self.layout.clear();
    }

    fn count(&self) -> u16 {
        self.layout.count()
    }

    fn class(&self, addr: u16) -> Result<u8, HeapFault> {
        if !self.has_object(addr) {
            return Err(HeapFault::NoObject);
        }
        Ok(self.layout.class_at(addr))
    }

    fn row_len(&self, addr: u16) -> Result<usize, HeapFault> {
        if !self.has_object(addr) {
            return Err(HeapFault::NoObject);
        }
        Ok(self.layout.len_at(addr))
    }

    fn read(&self, addr: u16, field: usize) -> Result<Value, HeapFault> {
        if !self.has_field(addr, field) {
            return Err(HeapFault::NoObject);
        }
        Ok(self.layout.value_at(addr, field))
    }

    fn write(&mut self, addr: u16, field: usize, value: Value) -> Result<(), HeapFault> {
        if !self.has_field(addr, field) {
            return Err(HeapFault::NoObject);
        }
        self.layout.put(addr, field, value);
        Ok(())
    }

    fn line(&self, position: usize) -> Option<ChargeLine> {
        let line = self.layout.line();
        match position {
            0 => Some(line),
            _ => None,
        }
    }
}
