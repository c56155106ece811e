// Any call of a machine, by the phase that it meets.
ghost use Rattle.std.specs.Prelude.{◌≡◌};
ghost use Rattle.jinja.specs.Calls.{perform};
ghost use Rattle.machine.specs.States.{program, state};
ghost use Rattle.machine.specs.Asked.{asked, said};

use crate::call::Call;
use crate::machine::Machine;
use crate::ticket::Ticket;
use heap::store::Heap;
use jinja::answer::{Phase, Refusal, Reply};

impl<H: Heap> Machine<H> {
    /// A call that is held as a value, as a script or a log has it: the ticket of a begin is handed out by its number,
    /// and an end brings one of any number.
    pub fn perform(&mut self, call: Call) -> Reply
        ensures state { (result, state H.Heap.meaning self.new) ≡ perform (program self.old) (asked call.entry) (state H.Heap.meaning self.old) }
        ensures program { program self.new ≡ program self.old }
    {
        match self.reply(call) {
            Ok(reply) => reply,
            Err(refusal) => Reply::Refused(refusal),
        }
    }

    // What the call answers in the phase that it meets, where it is not refused.
    fn reply(&mut self, call: Call) -> Result<Reply, Refusal>
        ensures state { (said result, state H.Heap.meaning self.new) ≡ perform (program self.old) (asked call.entry) (state H.Heap.meaning self.old) }
        ensures program { program self.new ≡ program self.old }
    {
        match (self.phase, call) {
            (Phase::Idle, Call::Begin(class, name, args)) => {
                let Ticket { machine } = self.begin(class, name, args)?;
                Ok(Reply::Began(machine))
            }
            (_, Call::Begin(_, _, _)) => Err(Refusal::Busy),
            (Phase::Idle, _) => Err(Refusal::Idle),
            (_, Call::Step) => Ok(Reply::Stepped(self.act())),
            (_, Call::Run(n)) => Ok(Reply::Ran(self.go(n))),
            // No `map_err`: the ticket that comes back must be taken apart, as the arm shows.
            (_, Call::End(machine)) => match self.end(Ticket { machine }) {
                Ok(ended) => Ok(Reply::Ended(ended)),
                Err((refusal, ticket)) => {
                    let Ticket { machine: _ } = ticket;
                    Err(refusal)
                }
            },
        }
    }
}
