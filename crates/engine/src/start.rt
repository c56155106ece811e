// What begins a run: new objects, the test of the arguments, and the first frame.
ghost use Rattle.std.specs.Prelude.{◌≡◌, false, List, [], ◌∷◌, length, Some, None, MatchOption, is_some, nat_eq};
ghost use Rattle.heap.specs.declared.charge.ChargeLine.{ChargeLine};
ghost use Rattle.heap.specs.Calls.{vacant};
ghost use Rattle.jinja.specs.Classes.{maybe};
ghost use Rattle.jinja.specs.Lookups.{Owned, method_at};
ghost use Rattle.jinja.specs.Values.{fit_all};
ghost use Rattle.jinja.specs.Step.{opened};
ghost use Rattle.jinja.specs.Calls.{add_object};
ghost use Rattle.set.specs.Sets.{set_program};
ghost use Rattle.engine.specs.Views.{frames_of};

use crate::creating::add_object;
use crate::fitting::fit_alone;
use crate::frames::Frames;
use crate::program::Program;
use heap::store::Heap;
use heap::value::Value;
use jinja::program::ClassNumber;
use set::set::Set;

/// Adds an object of class `c` with the values that its fields start with, and answers its address. Nothing where the
/// heap has no room; it stays then as it is.
pub fn new_object<H: Heap>(set: &Set, heap: &mut H, c: ClassNumber) -> Option<u16>
    ensures { MatchOption result ((add_object (set_program set.now) (H.Heap.meaning heap.old) c ≡ None) × (H.Heap.meaning heap.new ≡ H.Heap.meaning heap.old)) (λ a. (add_object (set_program set.now) (H.Heap.meaning heap.old) c ≡ Some (H.Heap.meaning heap.new)) × (a ≡ length (H.Heap.meaning heap.old).objects)) }
{
    add_object(set.tables(), heap, c)
}

/// Whether the arguments fit the parameters of method `k` where there are no objects. They fit no method that is not
/// there.
pub fn arguments_fit(set: &Set, k: usize, args: &[Value]) -> bool
    ensures fit { (N : Owned) (ls : List ChargeLine) → method_at (set_program set.now) k ≡ Some N → result ≡ fit_all (set_program set.now) (vacant ls) args.now N.method.params }
    ensures none { method_at (set_program set.now) k ≡ None → result ≡ false }
{
    let tables = Program::of(set).tables;
    match tables.method(k) {
        Some(method) => fit_alone(tables, args, tables.params_from(method)),
        None => false,
    }
}

/// A frame of method `k` alone, for this object and as many arguments as the method has parameters. Where there is no
/// such method, or for another count of arguments, the frames stay as they are.
pub fn open(set: &Set, frames: &mut Frames, k: usize, this: u16, args: &[Value]) -> Option<()>
    ensures told { is_some result ≡ maybe (method_at (set_program set.now) k) false (λ N. nat_eq (length args.now) (length N.method.params)) }
    ensures opened { (N : Owned) → method_at (set_program set.now) k ≡ Some N → length args.now ≡ length N.method.params → frames_of frames.new ≡ opened N k this args.now ∷ [] }
    ensures kept { result ≡ None → frames_of frames.new ≡ frames_of frames.old }
{
    let program = Program::of(set);
    let method = program.tables.method(k)?;
    if args.len() != method.params.count {
        return None;
    }
    frames.open_first(k, this, args, method.extras as usize);
    Some(())
}
