// What a caller in C may conclude from numbers.
ghost use Rattle.jsgen_c.specs.Numbers.{NumbersTell};
ghost use Rattle.jsgen_c.specs.Texts.{BuildNumbersTell};

/// Nothing is lost in the numbers: a status and an answer are those of one outcome.
pub fn numbers_tell()
    ensures one { NumbersTell }
    ensures all { BuildNumbersTell }
{}
