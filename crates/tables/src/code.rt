// What a method has: its record by its number, its parameter types, code and handlers, and the class that declares it.
ghost use Rattle.std.specs.Prelude.{◌≡◌, ◌+◌, ◌<◌, IfSome, Some, None, MatchOption};
ghost use Rattle.std.specs.List.{slice_get};
ghost use Rattle.jinja.specs.Classes.{maybe};
ghost use Rattle.jinja.specs.Lookups.{method_at};
ghost use Rattle.tables.specs.Views.{methods_of, params_of, instrs_of, program_of};
ghost use Rattle.tables.specs.Spans.{part};
ghost use Rattle.tables.specs.Methods.{method_of, params_in, code_in, handlers_in, Stands, Lacks, Whole, owner_of, unowned};
ghost use Rattle.format.specs.Limits.{max_classes};

use crate::records::MethodRec;
use crate::tables::Tables;
use jinja::instr::Instr;
use jinja::program::{BUILT_IN, ClassNumber, Handler};
use jinja::ty::Ty;

impl Tables {
    /// The record of the method of number `k`. Where each method belongs to a class, it is the program's `k`-th.
    #[inline(always)]
    pub fn method(&self, k: usize) -> Option<MethodRec>
        ensures record { result ≡ slice_get (methods_of self.now) k }
        ensures spans { MatchOption result (Lacks self.now k) (Stands self.now k) }
        ensures numbered { Whole self.now → unowned (method_at (program_of self.now) k) ≡ method_of self.now k }
    {
        self.methods.get(k)
    }

    /// The class that declares the method of number `k`.
    pub fn owner(&self, k: usize) -> Option<ClassNumber>
        ensures { result ≡ owner_of (method_at (program_of self.now) k) }
    {
        let i = self.owning_record(k)?;
        Some((BUILT_IN + i) as ClassNumber)
    }

    /// The types of the parameters of method `k`; none where there is no such method.
    pub fn params_of(&self, k: usize) -> &[Ty]
        ensures { result.now ≡ params_in self.now k }
    {
        match self.method(k) {
            Some(method) => self.params_from(method),
            None => &[],
        }
    }

    /// The types of the parameters of a method, by its record.
    #[inline(always)]
    pub fn params_from(&self, method: MethodRec) -> &[Ty]
        ensures { result.now ≡ part method.params (params_of self.now) }
    {
        method.params.of(self.params.as_slice())
    }

    /// The code of a method, by its record.
    #[inline(always)]
    pub fn code_from(&self, method: MethodRec) -> &[Instr]
        ensures { result.now ≡ part method.code (instrs_of self.now) }
    {
        method.code.of(self.instrs.as_slice())
    }

    /// The code of method `k`; none where there is no such method.
    pub fn code_of(&self, k: usize) -> &[Instr]
        ensures { result.now ≡ code_in self.now k }
    {
        match self.method(k) {
            Some(method) => method.code.all_of(self.instrs.as_slice()),
            None => &[],
        }
    }

    /// The exception table of method `k`; none where there is no such method.
    pub fn handlers_of(&self, k: usize) -> &[Handler]
        ensures { result.now ≡ handlers_in self.now k }
    {
        match self.method(k) {
            Some(method) => method.handlers.all_of(self.handlers.as_slice()),
            None => &[],
        }
    }

    /// The instruction at `pc` in the code of method `k`.
    pub fn instr(&self, k: usize, pc: usize) -> Option<Instr>
        ensures { result ≡ slice_get (code_in self.now k) pc }
    {
        self.code_of(k).get(pc).copied()
    }

    // Where the record of the class that declares method `k` stands.
    fn owning_record(&self, k: usize) -> Option<usize>
        ensures owner { owner_of (method_at (program_of self.now) k) ≡ maybe result None (λ i. Some (4 + i)) }
        ensures few { IfSome result (λ i. i < max_classes) }
    {
        for (i, class) in self.classes.as_slice().iter().enumerate() {
            if k < class.methods.first + class.methods.count {
                return Some(i);
            }
        }
        None
    }
}
