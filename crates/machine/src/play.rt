// A run from begin to end, in one call.
ghost use Rattle.std.specs.Prelude.{◌≡◌};
ghost use Rattle.machine.specs.States.{program, state};
ghost use Rattle.machine.specs.Playing.{play};

use crate::machine::Machine;
use crate::played::Played;
use crate::ticket::Ticket;
use heap::store::Heap;
use heap::value::Value;
use jinja::answer::Refusal;
use jinja::program::{ClassNumber, Name};

impl<H: Heap> Machine<H> {
    /// Begins a run, runs at most `n` steps and ends it, however far it came. Refused as begin is, with 12 to 15.
    pub fn play(
        &mut self,
        class: ClassNumber,
        name: Name,
        args: &[Value],
        n: u64,
    ) -> Result<Played, Refusal>
        ensures state { (result, state H.Heap.meaning self.new) ≡ play (program self.old) class name args.now n (state H.Heap.meaning self.old) }
        ensures program { program self.new ≡ program self.old }
    {
        let ticket = self.begin(class, name, args)?;
        let ran = self.go(n);
        // Kept, no plainer by `map_err`: a refusal is never reached here, and its ticket must be taken apart.
        match self.end(ticket) {
            Ok(ended) => Ok(Played { ran, ended }),
            Err((_, ticket)) => {
                let Ticket { machine: _ } = ticket;
                unreachable()
            }
        }
    }
}
