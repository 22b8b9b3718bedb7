// Examples that compute, and a law on the count, each the contract of a function with an empty body.
ghost use Rattle.jsgen_map.specs.Law.{CountsPlaces, WorkedMarks, WorkedOffsets};

/// Lines and columns of worked offsets.
pub fn worked_offsets()
    ensures { WorkedOffsets }
{}

/// Marks, names and tokens of worked names.
pub fn worked_marks()
    ensures { WorkedMarks }
{}

/// What is counted over the bytes of a text, wherever it was cut meanwhile, is the place of its end.
pub fn counts_places()
    ensures { CountsPlaces }
{}
