//! Laws on marks of a source map, over all items of the layout. Nothing here runs, and no printer is mentioned.
#![tactic(auto)]

ghost use Rattle.jsgen_mark_laws.specs.Law.{ItemsAdd, MarksAreRight, NamesStand, QuietIsQuiet, SourcesAreAlike};

/// Items add text behind the code, and marks that lead to its end or behind it.
pub fn items_add()
    ensures { ItemsAdd }
{}

/// Marks stand in the order of the text, and no two neighbours have one offset.
pub fn marks_are_right()
    ensures { MarksAreRight }
{}

/// Each name that is printed has a place of its own, where the last mark is that of its span.
pub fn names_stand()
    ensures { NamesStand }
{}

/// Marks change nothing of the text.
pub fn quiet_is_quiet()
    ensures { QuietIsQuiet }
{}

/// With a source or without, the text is the same.
pub fn sources_are_alike()
    ensures { SourcesAreAlike }
{}
