// The listing of a set's tables, a class at a time.
use crate::lists::write_list;
use crate::words::{ClassWord, InstrWord, TypeWord};
use jinja::program::BUILT_IN;
use std::fmt;
use tables::records::{ClassRec, MethodRec};
use tables::tables::Tables;

/// How much a set has of the most common things.
#[derive(Drop)]
pub struct Counts<'a>(pub &'a Tables);

/// All that a set has, line by line.
#[derive(Drop)]
pub struct Listing<'a>(pub &'a Tables);

impl fmt::Display for Counts<'_> {
    fn fmt<W: fmt::Write>(&self, f: &mut fmt::Formatter<W>) -> fmt::Result {
        let t = self.0;
        let classes = t.classes.len();
        let methods = t.methods.len();
        let instructions = t.instrs.len();
        write!(
            f,
            "classes {classes} methods {methods} instructions {instructions}"
        )
    }
}

impl fmt::Display for Listing<'_> {
    fn fmt<W: fmt::Write>(&self, f: &mut fmt::Formatter<W>) -> fmt::Result {
        let t = self.0;
        writeln!(f, "{} handlers {}", Counts(t), t.handlers.len())?;
        for (i, class) in t.classes.as_slice().iter().enumerate() {
            write_class(f, t, i.saturating_add(BUILT_IN), *class)?;
        }
        Ok(())
    }
}

fn write_class<W: fmt::Write>(
    f: &mut fmt::Formatter<W>,
    t: &Tables,
    number: usize,
    class: ClassRec,
) -> fmt::Result {
    writeln!(f, "class {number} extends {}", ClassWord(class.superclass))?;
    for field in class.fields.of(t.fields.as_slice()) {
        writeln!(f, "  field named {}: {}", field.name, TypeWord(field.ty))?;
    }
    for (j, method) in class.methods.of(t.methods.as_slice()).iter().enumerate() {
        write_method(f, t, class.methods.first.saturating_add(j), *method)?;
    }
    Ok(())
}

fn write_method<W: fmt::Write>(
    f: &mut fmt::Formatter<W>,
    t: &Tables,
    number: usize,
    method: MethodRec,
) -> fmt::Result {
    write!(f, "  method {number} named {} (", method.name)?;
    write_list(
        f,
        ", ",
        method
            .params
            .of(t.params.as_slice())
            .iter()
            .map(|ty| TypeWord(*ty)),
    )?;
    write!(
        f,
        ") -> {}, stack {}",
        TypeWord(method.result),
        method.height
    )?;
    writeln!(f, ", registers {}", registers_of(method))?;
    for (at, instr) in method.code.of(t.instrs.as_slice()).iter().enumerate() {
        let instr = *instr;
        writeln!(f, "    {at}: {}", InstrWord { at, instr })?;
    }
    for handler in method.handlers.of(t.handlers.as_slice()) {
        write!(
            f,
            "    handler from {} to before {}",
            handler.first, handler.end
        )?;
        write!(
            f,
            " catches {} at {}",
            ClassWord(handler.class),
            handler.target
        )?;
        writeln!(f, " with depth {}", handler.depth)?;
    }
    Ok(())
}

/// How many registers a method has: this object, the parameters and the extras.
pub fn registers_of(method: MethodRec) -> usize {
    method
        .params
        .count
        .saturating_add(1)
        .saturating_add(usize::from(method.extras))
}
