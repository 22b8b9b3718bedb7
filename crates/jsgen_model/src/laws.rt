// Laws over the definitions, each the contract of a function with an empty body.
ghost use Rattle.jsgen_model.specs.Law.{CoreByTypes, KeptClassesAreEnough, PlainByTypes, PlainIsCore};

/// The plain data of a program is plain, so that a reading is promised of it, where each node is of a type of which one is
/// promised and has no flag set of which none is: what more is asked of a node holds of all that are built.
pub fn plain_by_types()
    ensures { PlainByTypes }
{}

/// And it is core where each node is that by its type and flags, and by what a tag sees.
pub fn core_by_types()
    ensures { CoreByTypes }
{}

/// What is plain is core, so that all that is promised of core is promised of it.
pub fn plain_is_core()
    ensures { PlainIsCore }
{}

/// A class without a table of private names changes none, so that it needn't be kept among those round a name.
pub fn kept_classes_are_enough()
    ensures { KeptClassesAreEnough }
{}
