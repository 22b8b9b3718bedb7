//! The reading law: what is printed reads back. It goes over definitions alone, and mentions no printer.
#![tactic(auto)]

ghost use Rattle.jsgen_reading_laws.specs.Law.{BytesAreRead, CoreBytesAreRead, CoreIsRead, PrintedIsRead};

/// The characters of a job's text are read as its program.
pub fn printed_is_read()
    ensures { PrintedIsRead }
{}

/// So are the characters of its bytes in UTF-8.
pub fn bytes_are_read()
    ensures { BytesAreRead }
{}

/// The characters of the text of a job that is core have a reading as its program.
pub fn core_is_read()
    ensures { CoreIsRead }
{}

/// So have the characters of its bytes in UTF-8.
pub fn core_bytes_are_read()
    ensures { CoreBytesAreRead }
{}
