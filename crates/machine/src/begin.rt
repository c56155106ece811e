// The begin of a run.
ghost use Rattle.std.specs.Prelude.{◌≡◌, Some, None, MatchOption, MatchResult};
ghost use Rattle.heap.specs.Calls.{after_empty};
ghost use Rattle.set.specs.Sets.{set_program};
ghost use Rattle.jinja.specs.declared.answer.Refusal.TheVariants.{NoSpace};
ghost use Rattle.jinja.specs.Calls.{begin, first_objects};
ghost use Rattle.machine.specs.States.{program, state};
ghost use Rattle.machine.specs.Asked.{numbered};

use crate::machine::Machine;
use crate::ticket::Ticket;
use engine::start::{arguments_fit, new_object, open};
use heap::store::Heap;
use heap::value::Value;
use jinja::answer::{Outcome, Phase, Refusal};
use jinja::program::{CLASS_CAST, ClassNumber, NULL_POINTER, Name, OUT_OF_MEMORY};
use set::set::Set;

/// Where begin puts this object.
const THIS_AT: u16 = 3;

impl<H: Heap> Machine<H> {
    /// Begins a run of the method that the class sees by that name, on a new object of the class, in an emptied heap with
    /// the three exception objects. Refused with 12 where the machine is not idle, 13 where there is no such class or it
    /// sees no such method, 14 where the arguments do not fit, and 15 where the heap does not take the first four
    /// objects; 15 leaves the heap empty, and a refusal changes nothing else.
    pub fn begin(
        &mut self,
        class: ClassNumber,
        name: Name,
        args: &[Value],
    ) -> Result<Ticket, Refusal>
        ensures state { (numbered result, state H.Heap.meaning self.new) ≡ begin (program self.old) class name args.now (state H.Heap.meaning self.old) }
        ensures program { program self.new ≡ program self.old }
    {
        let Phase::Idle = self.phase else {
            return Err(Refusal::Busy);
        };
        let set = self.accepted.set();
        let k = set.tables().sees(class, name).ok_or(Refusal::Unseen)?;
        if !arguments_fit(set, k, args) {
            return Err(Refusal::Argument);
        }
        first_objects(set, &mut self.heap, class)?;
        open(set, &mut self.frames, k, THIS_AT, args);
        self.phase = Phase::Running;
        self.steps = 0;
        self.outcome = Outcome::Nothing;
        Ok(Ticket {
            machine: self.number,
        })
    }
}

// Empties the heap and adds the exception objects and this object; where one is refused, the heap is left empty.
fn first_objects<H: Heap>(set: &Set, heap: &mut H, class: ClassNumber) -> Result<(), Refusal>
    ensures { MatchResult result (λ _. first_objects (set_program set.now) (after_empty (H.Heap.meaning heap.old)) class ≡ Some (H.Heap.meaning heap.new)) (λ e. (e ≡ NoSpace) × (first_objects (set_program set.now) (after_empty (H.Heap.meaning heap.old)) class ≡ None) × (H.Heap.meaning heap.new ≡ after_empty (H.Heap.meaning heap.old))) }
{
    heap.empty(); // the objects of the last run go
    if add_first(set, heap, class).is_none() {
        heap.empty();
        return Err(Refusal::NoSpace);
    }
    Ok(())
}

// Adds the exception objects and this object, as far as the heap takes them.
fn add_first<H: Heap>(set: &Set, heap: &mut H, class: ClassNumber) -> Option<u16>
    ensures objects { MatchOption result (first_objects (set_program set.now) (H.Heap.meaning heap.old) class ≡ None) (λ _. first_objects (set_program set.now) (H.Heap.meaning heap.old) class ≡ Some (H.Heap.meaning heap.new)) }
    ensures lines { (H.Heap.meaning heap.new).lines ≡ (H.Heap.meaning heap.old).lines }
{
    new_object(set, heap, NULL_POINTER)?;
    new_object(set, heap, CLASS_CAST)?;
    new_object(set, heap, OUT_OF_MEMORY)?;
    new_object(set, heap, class)
}
