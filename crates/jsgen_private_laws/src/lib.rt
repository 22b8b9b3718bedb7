//! Private names that are written as they are printed. Nothing here runs.
#![tactic(auto)]

ghost use Rattle.jsgen_private_laws.specs.Law.{SettledIsValid, SettledIsCore, SettledIsPlain, SettledIsQuiet, SettledIsRenamed, SettledIsPrinted};

/// A program breaks the same rules where its private names are written as they are printed.
pub fn settled_is_valid()
    ensures { SettledIsValid }
{}

/// A core program is one where its private names are written as they are printed.
pub fn settled_is_core()
    ensures { SettledIsCore }
{}

/// A plain program is one where its private names are written as they are printed.
pub fn settled_is_plain()
    ensures { SettledIsPlain }
{}

/// A quiet job is one where the private names of its program are written as they are printed.
pub fn settled_is_quiet()
    ensures { SettledIsQuiet }
{}

/// A program with the names that are printed is one that has them already.
pub fn settled_is_renamed()
    ensures { SettledIsRenamed }
{}

/// What is printed of a valid core program by tables of private names is what is printed without them where its private names are
/// written as they are printed, comments and marks aside: so what is proved of a program without such tables holds of all.
pub fn settled_is_printed()
    ensures { SettledIsPrinted }
{}
