// Laws of the texts that are printed.
ghost use Rattle.jsgen_text.specs.Law.{AsciiTextIsAscii, BackslashesTakenOut, CheapestIsShortest, DirectiveHasOneValue, NoTagCloses, PrintedLiteralHasItsValue};

/// What is printed for a string is a spelling of it, whatever the quote and whether the text is to be ASCII or not.
pub fn printed_literal_has_its_value()
    ensures { PrintedLiteralHasItsValue }
{}

/// No other quote that is allowed makes a shorter text of a string.
pub fn cheapest_is_shortest()
    ensures { CheapestIsShortest }
{}

/// What is printed for a string, a name, a directive, a pattern or a piece of a template that isn't tagged is all of ASCII where it is to be.
pub fn ascii_text_is_ascii()
    ensures { AsciiTextIsAscii }
{}

/// A directive stands for the same in each quote that spells it, in the quote that is printed, and with escapes for what isn't ASCII.
pub fn directive_has_one_value()
    ensures { DirectiveHasOneValue }
{}

/// Without the backslashes that are put into a text before the `/` of each `</script`, it is as it was.
pub fn backslashes_taken_out()
    ensures { BackslashesTakenOut }
{}

/// With these backslashes no `</script` stands in the text, in any letter case.
pub fn no_tag_closes()
    ensures { NoTagCloses }
{}
