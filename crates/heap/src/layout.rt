// How a heap lays its objects out.
ghost use Rattle.std.specs.Prelude.{◌≡◌, ◌<◌, ◌≤◌, true, [], ◌∷◌, length, slice_index_or};
ghost use Rattle.heap.specs.declared.value.Value.TheVariants.{Unit as unit};
ghost use Rattle.heap.specs.declared.charge.ChargeLine.{ChargeLine};
ghost use Rattle.heap.specs.Limits.{row_limit};
ghost use Rattle.heap.specs.Meaning.{Meaning, has_room, admits};
ghost use Rattle.heap.specs.Lawful.{Lawful};
ghost use Rattle.heap.specs.Calls.{object_at, with_object, with_value, vacant};

use crate::charge::ChargeLine;
use crate::value::Value;

/// A layout of objects at addresses from 0 on, under one charge line. What stands at an address is asked only where an
/// object does, and an object is put only where there is room.
pub trait Layout {
    ghost meaning: { Self → Meaning };

    // what every state has: addresses fit 16 bits, rows are short, and the line is lawful
    ghost lawful: { (s : Self) → Lawful (meaning s) };

    // the one charge line
    ghost line: { ChargeLine };

    /// A layout with no object.
    fn vacant() -> Self
        ensures { meaning result ≡ vacant (line ∷ []) };

    /// Leaves no object.
    fn clear(&mut self)
        ensures { meaning self.new ≡ vacant (meaning self.old).lines };

    /// The charge line.
    fn line(&self) -> ChargeLine
        ensures { (meaning self.now).lines ≡ result ∷ [] };

    /// How many objects there are.
    fn count(&self) -> u16
        ensures { result ≡ length (meaning self.now).objects };

    /// Whether the line's total has room for one more row of `n` values.
    fn has_room(&self, n: usize) -> bool
        requires { n ≤ row_limit }
        ensures { result ≡ has_room (meaning self.now).lines (meaning self.now).objects n };

    /// Appends an object.
    fn push(&mut self, class: u8, row: &[Value])
        requires { admits (meaning self.old) (length row.now) ≡ true }
        ensures { meaning self.new ≡ with_object (meaning self.old) class row.now };

    /// The class of the object at an address.
    fn class_at(&self, addr: u16) -> u8
        requires { addr < length (meaning self.now).objects }
        ensures { result ≡ (object_at (meaning self.now) addr).class };

    /// How many fields the object at an address has.
    fn len_at(&self, addr: u16) -> usize
        requires { addr < length (meaning self.now).objects }
        ensures { result ≡ length (object_at (meaning self.now) addr).row };

    /// The value of a field.
    fn value_at(&self, addr: u16, field: usize) -> Value
        requires object { addr < length (meaning self.now).objects }
        requires field { field < length (object_at (meaning self.now) addr).row }
        ensures { result ≡ slice_index_or (object_at (meaning self.now) addr).row field unit };

    /// Puts a value in a field's place.
    fn put(&mut self, addr: u16, field: usize, value: Value)
        requires object { addr < length (meaning self.old).objects }
        requires field { field < length (object_at (meaning self.old) addr).row }
        ensures { meaning self.new ≡ with_value (meaning self.old) addr field value };
}
