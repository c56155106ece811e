// A slot for each object, whatever its row.
ghost use Rattle.std.specs.Prelude.{◌≡◌, ◌≤◌, length};
ghost use Rattle.heap.specs.Limits.{row_limit};
ghost use Rattle.slot_heap.specs.Slots.{slot_line, slot_object, slot_meaning};
ghost use Rattle.slot_heap.specs.SlotsLawful.{slots_lawful};

use crate::limits::SLOTS;
use filled::filled::Filled;
use heap::charge::ChargeLine;
use heap::layout::Layout;
use heap::limits::ROW_LIMIT;
use heap::value::Value;

/// One for each object, and as many as there are slots.
pub const SLOT_LINE: ChargeLine = ChargeLine {
    fixed: 1,
    per_field: 0,
    total: SLOTS as u16,
};

/// One object: its class, and the values of its row.
#[derive(Clone, Copy)]
pub struct Slot {
    class: u8,
    row: Filled<Value, ROW_LIMIT>,
}

/// A layout of up to 128 objects, each in a slot of its own, with the charge line (1, 0, 128).
#[derive(Drop)]
pub struct Slots {
    slots: Filled<Slot, SLOTS>,
}

// A slot that holds an object.
fn slot_of(class: u8, row: &[Value]) -> Slot
    requires { length row.now ≤ row_limit }
    ensures { slot_object result ≡ (record { class = class; row = row.now }) }
{
    let mut values = Filled::new(Value::Unit);
    values.extend_from_slice(row).unwrap();
    Slot { class, row: values }
}

impl Layout for Slots {
    ghost meaning = { slot_meaning };

    ghost lawful = { slots_lawful };

    ghost line = { slot_line };

    fn vacant() -> Self {
        Slots {
            slots: Filled::new(slot_of(0, &[])),
        }
    }

    fn clear(&mut self) {
        self.slots.clear();
    }

    fn line(&self) -> ChargeLine {
        SLOT_LINE
    }

    fn count(&self) -> u16 {
        self.slots.len() as u16
    }

    fn has_room(&self, _: usize) -> bool {
        self.slots.len() < SLOTS
    }

    fn push(&mut self, class: u8, row: &[Value]) {
        self.slots.push(slot_of(class, row)).unwrap();
    }

    fn class_at(&self, addr: u16) -> u8 {
        self.slots.as_slice()[addr as usize].class
    }

    fn len_at(&self, addr: u16) -> usize {
        self.slots.as_slice()[addr as usize].row.len()
    }

    fn value_at(&self, addr: u16, field: usize) -> Value {
        self.slots.as_slice()[addr as usize].row.as_slice()[field]
    }

    fn put(&mut self, addr: u16, field: usize, value: Value) {
        let at = addr as usize;
        let mut slot = self.slots.as_slice()[at];
        let _ = slot.row.replace(field, value);
        let _ = self.slots.replace(at, slot);
    }
}
