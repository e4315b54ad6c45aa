//! Laws of partial groupings.
ghost use Rattle.grouping_tree.specs.Laws.{ClassesExtend, ClassesGrow, OptionsAscend, FrontsAreLegal, FullIsLegal, LegalIsPartial, NewIsOption, NextIsOption, OptionsAreLegal};

/// The first labels of a partial grouping are one.
pub fn fronts_are_legal()
    ensures { FrontsAreLegal }
{}

/// A legal grouping is a partial one.
pub fn legal_is_partial()
    ensures { LegalIsPartial }
{}

/// A partial grouping of all the items is legal.
pub fn full_is_legal()
    ensures { FullIsLegal }
{}

/// The next label of a partial grouping is among the options, exactly once.
pub fn next_is_option()
    ensures { NextIsOption }
{}

/// Each option may be put: the grouping stays a partial one.
pub fn options_are_legal()
    ensures { OptionsAreLegal }
{}

/// A new label is an option wherever the next item alone can be a frame.
pub fn new_is_option()
    ensures { NewIsOption }
{}

/// The options are ascending, so each label is there once.
pub fn options_ascend()
    ensures { OptionsAscend }
{}

/// With more labels each class only gets more items, after those that it has.
pub fn classes_extend()
    ensures { ClassesExtend }
{}

/// With more labels there are no fewer classes.
pub fn classes_grow()
    ensures { ClassesGrow }
{}
