// Numbers, with a minus before them or not.
ghost use Rattle.std.specs.Prelude.{◌≡◌, ◌++◌, codes, decimal, true, false};
ghost use Rattle.std.specs.Str.{chars};
ghost use Rattle.jsgen_model.specs.Punctuator.{minus};
ghost use Rattle.jsgen_model.specs.Items.{◌⊕◌, number, operator, wrapped, mark, marked_operator, marked_number};
ghost use Rattle.jsgen_model.specs.Lay.{lay};
ghost use Rattle.jsgen_model.specs.Layout.{number_ending};
ghost use Rattle.jsgen_model.specs.Spell.{big_text, items_if};
ghost use Rattle.jsgen_printer.specs.Printer.{ending_of};
ghost use Rattle.jsgen_printer.specs.Steps.{Lays};

use super::{Ending, Printer};
use jsgen_syntax::{Span, UnaryOperator};

#[tactic(auto, unfolding(crate::specs::Printer::pen_of))]
impl Printer<'_> {
    // What the code ends in behind a number.
    fn number_ending(dot_is_its_own: bool) -> Ending
        ensures { ending_of result ≡ number_ending dot_is_its_own }
    {
        if dot_is_its_own {
            Ending::Number
        } else {
            Ending::Other
        }
    }

    /// A number by its text; the test tells that a dot behind it would be its own.
    pub fn print_number(&mut self, text: &str, dot_is_its_own: bool)
        ensures { Lays self.old self.new (number dot_is_its_own (chars text.now)) }
    {
        let apart = self.is_apart();
        self.print_apart(apart, text, Printer::number_ending(dot_is_its_own));
    }

    /// A whole number.
    pub fn print_whole_number(&mut self, digits: u128)
        ensures { Lays self.old self.new (number true (decimal digits)) }
    {
        let mut buffer = itoa::Buffer::new();
        let text = buffer.format(digits);
        self.print_number(text, true);
    }

    /// A big integer by its digits.
    pub fn print_big_integer(&mut self, digits: &str)
        ensures { Lays self.old self.new (number false (big_text (chars digits.now))) }
    {
        self.print_number(digits, false);
        self.print_str("n", Ending::Other);
    }

    /// The same, with the mark of a span.
    pub fn print_marked_big_integer(&mut self, span: Span, digits: &str)
        ensures { Lays self.old self.new (marked_number span false (big_text (chars digits.now))) }
    {
        let apart = self.is_apart();
        self.print_if(apart, " ");
        self.print_mark(span);
        self.print_str(digits, Ending::Other);
        self.print_str("n", Ending::Other);
    }

    // The minus of a number.
    fn print_minus(&mut self)
        ensures { Lays self.old self.new (operator minus) }
    {
        self.print_unary_operator(UnaryOperator::UnaryNegation);
    }

    // A minus, and behind it a number of which a dot would be part.
    fn print_minus_number(&mut self, text: &str)
        ensures { Lays self.old self.new (operator minus ⊕ number true (chars text.now)) }
    {
        self.print_minus();
        self.print_number(text, true);
    }

    // A minus with the mark of a span, and the big integer by its digits behind it.
    fn print_minus_big_integer(&mut self, span: Span, digits: &str)
        ensures { Lays self.old self.new (marked_operator span minus ⊕ number false (big_text (chars digits.now))) }
    {
        self.print_marked_unary_operator(span, UnaryOperator::UnaryNegation);
        self.print_big_integer(digits);
    }

    // The same, in parentheses where the test holds.
    fn print_negative_number(&mut self, wrap: bool, text: &str)
        ensures { Lays self.old self.new (wrapped wrap (operator minus ⊕ number true (chars text.now))) }
    {
        self.print_opening_if(wrap);
        self.print_minus_number(text);
        self.print_closing_if(wrap);
    }

    /// A whole number with a minus before it, in parentheses where the test holds.
    pub fn print_negative_whole_number(&mut self, wrap: bool, digits: u128)
        ensures { Lays self.old self.new (wrapped wrap (operator minus ⊕ number true (decimal digits))) }
    {
        let mut buffer = itoa::Buffer::new();
        let text = buffer.format(digits);
        self.print_negative_number(wrap, text);
    }

    /// A big integer by its digits with a minus before it, in parentheses where the test holds, and with the mark of a span.
    pub fn print_negative_big_integer(&mut self, span: Span, wrap: bool, digits: &str)
        ensures { Lays self.old self.new (items_if wrap (mark span) ⊕ wrapped wrap (marked_operator span minus ⊕ number false (big_text (chars digits.now)))) }
    {
        self.print_mark_if(wrap, span);
        self.print_opening_if(wrap);
        self.print_minus_big_integer(span, digits);
        self.print_closing_if(wrap);
    }
}
