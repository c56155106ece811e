// A heap, by its meaning: objects and charge lines.
ghost use Rattle.std.specs.Prelude.{◌≡◌, length};
ghost use Rattle.heap.specs.Meaning.{Meaning};
ghost use Rattle.heap.specs.Lawful.{Lawful};
ghost use Rattle.heap.specs.Calls.{add_answer, after_add, after_empty, count_answer, class_answer, row_len_answer, read_answer, write_answer, after_write, line_answer};

use crate::charge::ChargeLine;
use crate::fault::HeapFault;
use crate::value::Value;

/// Objects at addresses from 0 on, under a list of charge lines that never changes. A refused call changes nothing.
pub trait Heap {
    ghost meaning: { Self → Meaning };

    // what every state has: addresses fit 16 bits, rows are short, and the lines are lawful
    ghost lawful: { (h : Self) → Lawful (meaning h) };

    /// Appends an object and answers its address. Refused with 18 exactly when the row has over 8 values or a line's use
    /// would pass its total.
    fn add(&mut self, class: u8, row: &[Value]) -> Result<u16, HeapFault>
        ensures answer { result ≡ add_answer (meaning self.old) (length row.now) }
        ensures after { meaning self.new ≡ after_add (meaning self.old) class row.now };

    /// Leaves no object. Never refused.
    fn empty(&mut self)
        ensures { meaning self.new ≡ after_empty (meaning self.old) };

    /// How many objects there are.
    fn count(&self) -> u16
        ensures { result ≡ count_answer (meaning self.now) };

    /// The class of the object at an address. Refused with 19 where none stands.
    fn class(&self, addr: u16) -> Result<u8, HeapFault>
        ensures { result ≡ class_answer (meaning self.now) addr };

    /// How many fields the object at an address has. Refused with 19 where none stands.
    fn row_len(&self, addr: u16) -> Result<usize, HeapFault>
        ensures { result ≡ row_len_answer (meaning self.now) addr };

    /// The value of a field. Refused with 19 where there is no such object or field.
    fn read(&self, addr: u16, field: usize) -> Result<Value, HeapFault>
        ensures { result ≡ read_answer (meaning self.now) addr field };

    /// Puts a value in a field's place. Refused with 19 where there is no such object or field.
    fn write(&mut self, addr: u16, field: usize, value: Value) -> Result<(), HeapFault>
        ensures answer { result ≡ write_answer (meaning self.old) addr field }
        ensures after { meaning self.new ≡ after_write (meaning self.old) addr field value };

    /// The charge line at a position, from the top of a pile downward, or nothing past the last.
    fn line(&self, position: usize) -> Option<ChargeLine>
        ensures { result ≡ line_answer (meaning self.now) position };
}
