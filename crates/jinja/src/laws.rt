// The theorems about the subject. Each function does nothing: its contract is the theorem.
ghost use Rattle.jinja.specs.ClassLaws.{ClassOrderHolds, ClassInheritance};
ghost use Rattle.jinja.specs.Example.{ExampleStands};
ghost use Rattle.jinja.specs.HeapLaws.{HeapLawsHold};
ghost use Rattle.jinja.specs.MachineLaws.{LookLawsHold, MachineLawsHold, NoAddressBegins, ValuesWhole};
ghost use Rattle.jinja.specs.Promise.{HistoriesKeep, TypableHistoriesKeep};
ghost use Rattle.jinja.specs.Safety.{TypeSafety};
ghost use Rattle.jinja.specs.TypingLaws.{RowOrderHolds, JoinLawsHold, RulesMonotone, SendsByRulesHolds, LeastUnique, TypableHasLeast};

/// The classes of a program are partially ordered by at-or-below, and the climb decides the order.
pub fn class_order()
    ensures { ClassOrderHolds }
{}

/// A class has the fields of the classes above it at the same places, and sees a method with the related types for each
/// name that they see.
pub fn class_inheritance()
    ensures { ClassInheritance }
{}

/// Rows are partially ordered, with unreached at the bottom.
pub fn row_order()
    ensures { RowOrderHolds }
{}

/// The join of two rows is their least upper bound, and is there wherever there is an upper bound.
pub fn join_is_least()
    ensures { JoinLawsHold }
{}

/// Where an instruction's needs hold of a row, they hold of every lower row, which sends less.
pub fn rules_are_monotone()
    ensures { RulesMonotone }
{}

/// The function that runs says of each instruction what the rules say.
pub fn sends_by_rules()
    ensures { SendsByRulesHolds }
{}

/// A method has at most one least well-typing.
pub fn least_is_unique()
    ensures { LeastUnique }
{}

/// A method that has a well-typing has a least one, however long its code.
pub fn typable_has_least()
    ensures { TypableHasLeast }
{}

/// Type safety: over any heap, and whatever well-typings the methods have, every call keeps a state that fits, and no
/// step of one is unsound.
pub fn type_safety()
    ensures { TypeSafety }
{}

/// The promise about histories, over any heap and after every list of calls: with any least well-typings of a program's
/// methods, and with those that there are wherever each method has a well-typing.
pub fn histories_keep()
    ensures least { HistoriesKeep }
    ensures typable { TypableHistoriesKeep }
{}

/// Running a + b steps is running a and then b; a run that is over stays so; only a step that answers 0 and begin change
/// the heap; a refusal changes nothing, but for a begin that finds no space.
pub fn machine_laws()
    ensures { MachineLawsHold }
{}

/// CmpEq holds of two values exactly when they are one.
pub fn values_compare_whole()
    ensures { ValuesWhole }
{}

/// A small program with a call, a handler, a field and a cast meets every condition of the theorems, and its run computes.
pub fn example_stands()
    ensures { ExampleStands }
{}

/// What the machine looks up in a heap is what the heap's own calls answer.
pub fn heap_answers()
    ensures { HeapLawsHold }
{}

/// Begin refuses every address among its arguments, whatever the heap of the last run holds.
pub fn no_address_begins()
    ensures { NoAddressBegins }
{}

/// Looking shows a frame or a cell exactly where one stands, counted from the bottom.
pub fn look_laws()
    ensures { LookLawsHold }
{}
