// Calls: the receiver, the arguments and the method that is called.
ghost use Rattle.std.specs.Prelude.{◌≡◌, ℕ, ◌+◌, ◌<◌, length, drop, Some, None, OnSome};
ghost use Rattle.jinja.specs.Rule.{operands_of};
ghost use Rattle.jinja.specs.Classes.{maybe};
ghost use Rattle.jinja.specs.Transfer.{types_le, send_call};
ghost use Rattle.tables.specs.Views.{program_of};
ghost use Rattle.type_rows.specs.Calling.{arguments, call_operands, params_at, result_at, called};
ghost use Rattle.type_rows.specs.Leading.{told};
ghost use Rattle.type_rows.specs.Stepping.{program, owned, Steps};
ghost use Rattle.type_rows.specs.TypeFrames.{frame_types, frame_cells};

use crate::frame::TypeFrame;
use crate::leads::Leads;
use crate::method::Method;
use crate::types::lies_below;
use jinja::instr::Instr;
use jinja::program::{ClassNumber, Name};
use jinja::ty::Ty;
use tables::tables::Tables;

/// Whether the `n` topmost types are as the parameters ask.
fn arguments_fit(tables: &Tables, frame: &TypeFrame, n: usize, params: &[Ty]) -> bool
    requires { n < length (frame_types frame.now) }
    ensures { result ≡ types_le (program_of tables.now) (arguments n (frame_types frame.now)) params.now }
{
    if params.len() != n {
        return false;
    }
    // Kept, tried by `zip` and `all`: that each pair fits was not proved from the run of the zipped iterator.
    for (j, param) in params.iter().enumerate() {
        let Some(t) = frame.below(n - 1 - j) else {
            return false;
        };
        if !lies_below(tables, t, *param) {
            return false;
        }
    }
    true
}

impl<'a> Method<'a> {
    // The parameters of the method `k`.
    fn params_at(&self, k: usize) -> &[Ty]
        ensures { result.now ≡ params_at (program self.now) k }
    {
        self.tables.params_of(k)
    }

    // The result of the method `k`.
    fn result_at(&self, k: usize) -> Option<Ty>
        ensures { result ≡ result_at (program self.now) k }
    {
        Some(self.tables.method(k)?.result)
    }

    // The call of the method `k` with the `n` topmost types and a receiver under them.
    fn step_method(&self, k: usize, n: u8, frame: &mut TypeFrame) -> Option<Leads>
        requires { n < length (frame_types frame.old) }
        ensures { (pc : ℕ) → called (program self.now) (owned self.now) k pc (frame_cells self.now.registers frame.old) (arguments n (frame_types frame.old)) (drop (n + 1) (frame_types frame.old)) ≡ told result pc (frame_types frame.new) (frame_cells self.now.registers frame.new) }
    {
        let t = self.result_at(k)?;
        if !arguments_fit(self.tables, frame, n as usize, self.params_at(k)) {
            return None;
        }
        frame.discard(n as usize + 1);
        frame.push(self.height, t)?;
        Some(Leads::Next)
    }

    // The call of what the class `c` sees under the name `m`.
    fn step_call(&self, c: ClassNumber, m: Name, n: u8, frame: &mut TypeFrame) -> Option<Leads>
        requires { n < length (frame_types frame.old) }
        ensures { (pc : ℕ) → send_call (program self.now) (owned self.now) m pc (frame_cells self.now.registers frame.old) (call_operands n (frame_types frame.old) (Ty.Class c)) ≡ told result pc (frame_types frame.new) (frame_cells self.now.registers frame.new) }
    {
        let k = self.tables.sees(c, m)?;
        self.step_method(k, n, frame)
    }

    // Invoke: on Null's type nothing follows; on a class it sees the method, and the arguments fit.
    pub(crate) fn step_invoke(&self, m: Name, n: u8, frame: &mut TypeFrame) -> Option<Leads>
        ensures { (pc : ℕ) → Steps self.now (Instr.Invoke m n) pc frame.old result frame.new }
    {
        match receiver(frame, n as usize)? {
            Ty::Void | Ty::Boolean | Ty::Integer => None,
            Ty::NullType => Some(Leads::Nowhere),
            Ty::Class(c) => self.step_call(c, m, n, frame),
        }
    }
}

// The type under the `n` topmost.
fn receiver(frame: &TypeFrame, n: usize) -> Option<Ty>
    ensures operands { operands_of n (frame_types frame.now) ≡ maybe result None (λ t. Some (call_operands n (frame_types frame.now) t)) }
    ensures held { OnSome result (n < length (frame_types frame.now)) }
{
    frame.below(n)
}
