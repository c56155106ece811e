// The end of a run.
ghost use Rattle.std.specs.Prelude.{◌≡◌};
ghost use Rattle.jinja.specs.Calls.{end};
ghost use Rattle.machine.specs.States.{program, state};
ghost use Rattle.machine.specs.Asked.{told, HandedBack};

use crate::machine::Machine;
use crate::ticket::Ticket;
use heap::store::Heap;
use jinja::answer::{Ended, Outcome, Phase, Refusal};

impl<H: Heap> Machine<H> {
    /// Takes the ticket of the run back and answers its phase, steps and outcome. The frames go, the heap stays, and the
    /// machine is idle. Refused with 16 where it is idle and with 17 for another machine's ticket; a refusal changes
    /// nothing and hands the ticket back.
    pub fn end(&mut self, ticket: Ticket) -> Result<Ended, (Refusal, Ticket)>
        ensures state { (told result, state H.Heap.meaning self.new) ≡ end (program self.old) ticket.machine (state H.Heap.meaning self.old) }
        ensures ticket { HandedBack ticket result }
        ensures program { program self.new ≡ program self.old }
    {
        if let Phase::Idle = self.phase {
            return Err((Refusal::Idle, ticket));
        }
        let Ticket { machine } = ticket;
        if machine != self.number {
            return Err((Refusal::Ticket, Ticket { machine }));
        }
        let ended = Ended {
            phase: self.phase,
            steps: self.steps,
            outcome: self.outcome,
        };
        self.frames.clear();
        self.phase = Phase::Idle;
        self.steps = 0;
        self.outcome = Outcome::Nothing;
        Ok(ended)
    }
}
