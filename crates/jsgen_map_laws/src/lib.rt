//! What a source map says to those who use it. Nothing here runs, and no printer is mentioned.
#![tactic(auto)]

ghost use Rattle.jsgen_map_laws.specs.Law.{NamesAreOfTheSource, NamesAreKept, TokensHaveNames, NamesOfMapsAreOfTheSource, PositionsRise, PositionsOfMapsRise};

/// Each mark with a name stands where a name is printed, and has what the source has there instead.
pub fn names_are_of_the_source()
    ensures { NamesAreOfTheSource }
{}

/// No such name is missing, but where the mark before the name leads to the same offset.
pub fn names_are_kept()
    ensures { NamesAreKept }
{}

/// Each token of a map has the name of its mark.
pub fn tokens_have_names()
    ensures { TokensHaveNames }
{}

/// The names of a job's map are what the source has where other names are printed, and none is missing.
pub fn names_of_maps_are_of_the_source()
    ensures { NamesOfMapsAreOfTheSource }
{}

/// The tokens of a map stand in the order of the text, by line, and in one line by column.
pub fn positions_rise()
    ensures { PositionsRise }
{}

/// So do those of a job's map.
pub fn positions_of_maps_rise()
    ensures { PositionsOfMapsRise }
{}
