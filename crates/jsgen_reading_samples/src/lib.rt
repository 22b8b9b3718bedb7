//! Samples: what a few texts are read as, with patterns of bindings and of assignment targets, with async functions and with generators, and
//! which texts aren't read. Nothing here runs.
#![tactic(auto)]

ghost use Rattle.jsgen_reading_samples.specs.ReadPatterns.{ReadPatterns};
ghost use Rattle.jsgen_reading_samples.specs.TargetPatterns.{TargetPatterns};
ghost use Rattle.jsgen_reading_samples.specs.HeadPatterns.{HeadPatterns};
ghost use Rattle.jsgen_reading_samples.specs.ReadFunctions.{ReadFunctions};
ghost use Rattle.jsgen_reading_samples.specs.Hashbangs.{Hashbangs};
ghost use Rattle.jsgen_reading_samples.specs.RefusedPatterns.{RefusedPatterns};
ghost use Rattle.jsgen_reading_samples.specs.RefusedFunctions.{RefusedFunctions};
ghost use Rattle.jsgen_reading_samples.specs.RefusedTexts.{RefusedTexts};
ghost use Rattle.jsgen_reading_samples.specs.RefusedVectors.{RefusedVectors};

/// The grammar reads patterns as ECMA-262 does.
pub fn read_patterns()
    ensures { ReadPatterns }
{}

/// And patterns of assignment targets.
pub fn target_patterns()
    ensures { TargetPatterns }
{}

/// And patterns in the heads of loops.
pub fn head_patterns()
    ensures { HeadPatterns }
{}

/// And async functions, generators, `await`, `yield` and loops that wait.
pub fn read_functions()
    ensures { ReadFunctions }
{}

/// And a hashbang at the front of a text; one that stands elsewhere isn't read.
pub fn first_lines()
    ensures { Hashbangs }
{}

/// It doesn't read a few texts with patterns that ECMA-262 doesn't read.
pub fn refused_patterns()
    ensures { RefusedPatterns }
{}

/// Nor a few with async functions, generators, `await`, `yield` and loops that wait.
pub fn refused_functions()
    ensures { RefusedFunctions }
{}

/// Nor a few others that it would read where a rule was left out, or stood a level too high.
pub fn refused_texts()
    ensures { RefusedTexts }
{}

/// Nor texts of tests/readings.json with async functions, generators, classes, imports and exports.
pub fn refused_vectors()
    ensures { RefusedVectors }
{}
