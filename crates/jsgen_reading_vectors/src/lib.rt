// Generated from tools/vectors/chosen.json; edit that and run tools/vectors/generate.
//! What the grammar reads texts as that hang on one of its rules. Nothing here runs.
#![tactic(auto)]

ghost use Rattle.jsgen_reading_vectors.specs.VectorsAsync.{VectorsAsync};
ghost use Rattle.jsgen_reading_vectors.specs.VectorsGenerators.{VectorsGenerators};
ghost use Rattle.jsgen_reading_vectors.specs.VectorsMethods.{VectorsMethods};
ghost use Rattle.jsgen_reading_vectors.specs.VectorsClasses.{VectorsClasses};
ghost use Rattle.jsgen_reading_vectors.specs.VectorsMembers.{VectorsMembers};
ghost use Rattle.jsgen_reading_vectors.specs.VectorsModules.{VectorsModules};
ghost use Rattle.jsgen_reading_vectors.specs.VectorsDefaults.{VectorsDefaults};
ghost use Rattle.jsgen_reading_vectors.specs.VectorsImports.{VectorsImports};
ghost use Rattle.jsgen_reading_vectors.specs.VectorsNames.{VectorsNames};
ghost use Rattle.jsgen_reading_vectors.specs.VectorsChains.{VectorsChains};
ghost use Rattle.jsgen_reading_vectors.specs.VectorsPatterns.{VectorsPatterns};
ghost use Rattle.jsgen_reading_vectors.specs.VectorsPrivates.{VectorsPrivates};
ghost use Rattle.jsgen_reading_vectors.specs.VectorsSlashes.{VectorsSlashes};
ghost use Rattle.jsgen_reading_vectors.specs.VectorsTemplates.{VectorsTemplates};

/// The grammar reads the texts of async as ECMA-262 does.
pub fn async_vectors()
    ensures { VectorsAsync }
{}

/// The grammar reads the texts of generators as ECMA-262 does.
pub fn generators_vectors()
    ensures { VectorsGenerators }
{}

/// The grammar reads the texts of methods as ECMA-262 does.
pub fn methods_vectors()
    ensures { VectorsMethods }
{}

/// The grammar reads the texts of classes as ECMA-262 does.
pub fn classes_vectors()
    ensures { VectorsClasses }
{}

/// The grammar reads the texts of members as ECMA-262 does.
pub fn members_vectors()
    ensures { VectorsMembers }
{}

/// The grammar reads the texts of modules as ECMA-262 does.
pub fn modules_vectors()
    ensures { VectorsModules }
{}

/// The grammar reads the texts of defaults as ECMA-262 does.
pub fn defaults_vectors()
    ensures { VectorsDefaults }
{}

/// The grammar reads the texts of imports as ECMA-262 does.
pub fn imports_vectors()
    ensures { VectorsImports }
{}

/// The grammar reads the texts of names as ECMA-262 does.
pub fn names_vectors()
    ensures { VectorsNames }
{}

/// The grammar reads the texts of chains as ECMA-262 does.
pub fn chains_vectors()
    ensures { VectorsChains }
{}

/// The grammar reads the texts of patterns as ECMA-262 does.
pub fn patterns_vectors()
    ensures { VectorsPatterns }
{}

/// The grammar reads the texts of privates as ECMA-262 does.
pub fn privates_vectors()
    ensures { VectorsPrivates }
{}

/// The grammar reads the texts of slashes as ECMA-262 does.
pub fn slashes_vectors()
    ensures { VectorsSlashes }
{}

/// The grammar reads the texts of templates as ECMA-262 does.
pub fn templates_vectors()
    ensures { VectorsTemplates }
{}
