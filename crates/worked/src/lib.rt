//! Worked examples: files, what loading them answers and what their runs come to, as one table that the definitions meet.
#![tactic(auto)]

ghost use Rattle.worked.specs.Examples.{ExamplesStand};

/// Each example of the table stands: the file is accepted with these least well-typings or refused with this number at
/// this place, and its runs take so many steps and end so.
pub fn examples_stand()
    ensures { ExamplesStand }
{}
