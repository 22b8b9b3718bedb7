//! A reader of tokens, one after the other, and what follows from it: the grammar reads tokens as one program. Nothing here runs.
#![tactic(auto)]

ghost use Rattle.jsgen_one_reading.specs.Law.{BytesHaveOneMeaning, ModuleIsRead, OneMeaning, OneProgram, OneReading};

/// What the grammar reads as a module, the reader answers.
pub fn module_is_read()
    ensures { ModuleIsRead }
{}

/// The grammar reads tokens as one program.
pub fn one_reading()
    ensures { OneReading }
{}

/// And so it does behind a hashbang.
pub fn one_program()
    ensures { OneProgram }
{}

/// A printed text has one meaning.
pub fn one_meaning()
    ensures { OneMeaning }
{}

/// So has the text of its bytes.
pub fn bytes_have_one_meaning()
    ensures { BytesHaveOneMeaning }
{}
