// Handlers: which of them an instruction must reckon with, and whether they suit a row.
ghost use Rattle.std.specs.Prelude.{◌≡◌, ◌&&◌, length, nat_le, nat_lt};
ghost use Rattle.jinja.specs.Transfer.{may_throw, is_relevant};
ghost use Rattle.tables.specs.Views.{program_of};
ghost use Rattle.type_rows.specs.Refusing.{handler_suits, handler_passes, handlers_pass};
ghost use Rattle.type_rows.specs.Stepping.{program, owned};

use crate::method::Method;
use crate::site::Site;
use jinja::instr::Instr;
use jinja::program::{CLASS_CAST, ClassNumber, Handler, NULL_POINTER, OUT_OF_MEMORY};
use tables::tables::Tables;

/// Whether the instruction may throw what a handler of class `c` catches.
pub fn may_throw(tables: &Tables, i: Instr, c: ClassNumber) -> bool
    ensures { result ≡ may_throw (program_of tables.now) i c }
{
    match i {
        Instr::New(_) => tables.at_or_below(OUT_OF_MEMORY, c),
        Instr::Getfield(_, _) | Instr::Putfield(_, _) => tables.at_or_below(NULL_POINTER, c),
        Instr::Checkcast(_) => tables.at_or_below(CLASS_CAST, c),
        Instr::Invoke(_, _) | Instr::Throw => true,
        _ => false,
    }
}

// Whether the handler's range holds `pc`.
fn covers(handler: Handler, pc: usize) -> bool
    ensures { result ≡ (nat_le handler.first pc && nat_lt pc handler.end) }
{
    (handler.first as usize..handler.end as usize).contains(&pc)
}

impl<'a> Method<'a> {
    /// Whether the instruction must reckon with the handler.
    pub(crate) fn is_relevant(&self, site: Site, handler: Handler) -> bool
        ensures { result ≡ is_relevant (program self.now) site.instr site.pc handler }
    {
        covers(handler, site.pc) && may_throw(self.tables, site.instr, handler.class)
    }

    // Whether the handler's class exists, its depth suits a stack of this height, and its target lies in the code.
    fn suits(&self, handler: Handler, height: usize) -> bool
        ensures { result ≡ handler_suits (program self.now) handler height (owned self.now).method.height (length (owned self.now).method.code) }
    {
        self.tables.is_class(handler.class)
            && handler.depth as usize <= height
            && (handler.depth as usize) < self.height
            && (handler.target as usize) < self.count()
    }

    // Whether the handler is not relevant, or suits.
    fn passes(&self, site: Site, height: usize, handler: Handler) -> bool
        ensures { result ≡ handler_passes (program self.now) site.instr site.pc height (owned self.now).method.height (length (owned self.now).method.code) handler }
    {
        !self.is_relevant(site, handler) || self.suits(handler, height)
    }

    /// Whether each relevant handler suits a stack of this height.
    pub(crate) fn all_pass(&self, site: Site, height: usize) -> bool
        ensures { result ≡ handlers_pass (program self.now) site.instr site.pc height (owned self.now).method.height (length (owned self.now).method.code) (owned self.now).method.handlers }
    {
        self.handlers()
            .iter()
            .all(|handler| self.passes(site, height, *handler))
    }
}
