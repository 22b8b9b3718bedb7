// Operators, and what of the code's end they stand apart from.
ghost use Rattle.std.specs.Prelude.{◌≡◌};
ghost use Rattle.jsgen_model.specs.Punctuator.{plus, minus, equal_equal, equal_equal_equal, plus_plus, minus_minus};
ghost use Rattle.jsgen_model.specs.Layout.{ends_in_less_bang, joins};
ghost use Rattle.jsgen_model.specs.Operators.{operator_item, unary_sign, behind_unary, update_item, logical_item, assignment_item, marked};
ghost use Rattle.jsgen_printer.specs.Printer.{pen_of, stands_apart};
ghost use Rattle.jsgen_printer.specs.Steps.{Lays};

use super::{Ending, Printer};
use crate::operator::Operator;
use jsgen_syntax::{
    AssignmentOperator, BinaryOperator, LogicalOperator, Span, UnaryOperator, UpdateOperator,
};

#[tactic(auto, using(crate::proofs::Texts::ascii_chars), unfolding(crate::specs::Printer::pen_of))]
impl Printer<'_> {
    pub fn print_operator(&mut self, operator: BinaryOperator)
        ensures { Lays self.old self.new (operator_item operator) }
    {
        let apart = self.stands_apart(operator);
        let sign = operator.as_str();
        self.print_apart(apart, sign, Ending::Operator(Operator::Binary(operator)));
    }

    /// An operator before its operand.
    pub fn print_unary_operator(&mut self, operator: UnaryOperator)
        ensures { Lays self.old self.new (unary_sign operator) }
    {
        let apart = self.unary_stands_apart(operator);
        let text = operator.as_str();
        self.print_apart(apart, text, Ending::Operator(Operator::Unary(operator)));
    }

    /// The same, with the mark of the span that it begins.
    pub fn print_marked_unary_operator(&mut self, span: Span, operator: UnaryOperator)
        ensures { Lays self.old self.new (marked span (unary_sign operator)) }
    {
        let apart = self.unary_stands_apart(operator);
        self.print_if(apart, " ");
        self.print_mark(span);
        self.print_str(
            operator.as_str(),
            Ending::Operator(Operator::Unary(operator)),
        );
    }

    /// An operator before what it changes, with the mark of the span that it begins.
    pub fn print_marked_update_operator(&mut self, span: Span, operator: UpdateOperator)
        ensures { Lays self.old self.new (marked span (update_item operator)) }
    {
        let apart = self.update_stands_apart(operator);
        self.print_if(apart, " ");
        self.print_mark(span);
        self.print_str(
            operator.as_str(),
            Ending::Operator(Operator::Update(operator)),
        );
    }

    /// An operator before or behind what it changes.
    pub fn print_update_operator(&mut self, operator: UpdateOperator)
        ensures { Lays self.old self.new (update_item operator) }
    {
        let apart = self.update_stands_apart(operator);
        let signs = operator.as_str();
        self.print_apart(apart, signs, Ending::Operator(Operator::Update(operator)));
    }

    /// What stands between such an operator and its operand.
    pub fn print_behind_unary(&mut self, operator: UnaryOperator)
        ensures { Lays self.old self.new (behind_unary operator) }
    {
        match operator {
            UnaryOperator::Typeof | UnaryOperator::Void | UnaryOperator::Delete =>
                self.print_soft_space(),
            _ => {}
        }
    }

    pub fn print_logical_sign(&mut self, operator: LogicalOperator)
        ensures { Lays self.old self.new (logical_item operator) }
    {
        self.print_str(operator.as_str(), Ending::Other);
    }

    /// The sign of an assignment.
    pub fn print_assignment_sign(&mut self, operator: AssignmentOperator)
        ensures { Lays self.old self.new (assignment_item operator) }
    {
        self.print_str(operator.as_str(), Ending::Other);
    }

    // Whether the operator stands apart from what the code ends in: a word from a word, a sign from one that it would join.
    fn stands_apart(&self, operator: BinaryOperator) -> bool
        ensures { result ≡ stands_apart (operator_item operator) (pen_of self.now) }
    {
        match operator {
            BinaryOperator::In | BinaryOperator::Instanceof => self.is_apart(),
            BinaryOperator::Addition => self.ends_in_plus(),
            BinaryOperator::Subtraction => self.ends_in_minus(),
            BinaryOperator::Equality | BinaryOperator::StrictEquality => self.ends_in_bang(),
            _ => false,
        }
    }

    fn unary_stands_apart(&self, operator: UnaryOperator) -> bool
        ensures { result ≡ stands_apart (unary_sign operator) (pen_of self.now) }
    {
        match operator {
            UnaryOperator::Typeof | UnaryOperator::Void | UnaryOperator::Delete => self.is_apart(),
            UnaryOperator::UnaryPlus => self.ends_in_plus(),
            UnaryOperator::UnaryNegation => self.ends_in_minus(),
            _ => false,
        }
    }

    fn update_stands_apart(&self, operator: UpdateOperator) -> bool
        ensures { result ≡ stands_apart (update_item operator) (pen_of self.now) }
    {
        match operator {
            UpdateOperator::Increment => self.ends_in_plus(),
            UpdateOperator::Decrement => self.stands_apart_from_decrement(),
        }
    }

    fn ends_in_plus(&self) -> bool
        ensures sign { result ≡ joins (pen_of self.now).ending (pen_of self.now).code plus }
        ensures update { result ≡ joins (pen_of self.now).ending (pen_of self.now).code plus_plus }
    {
        matches!(
            &self.ending,
            Ending::Operator(Operator::Binary(BinaryOperator::Addition))
                | Ending::Operator(Operator::Unary(UnaryOperator::UnaryPlus))
        )
    }

    fn ends_in_minus(&self) -> bool
        ensures { result ≡ joins (pen_of self.now).ending (pen_of self.now).code minus }
    {
        matches!(
            &self.ending,
            Ending::Operator(Operator::Binary(BinaryOperator::Subtraction))
                | Ending::Operator(Operator::Unary(UnaryOperator::UnaryNegation))
        )
    }

    // Whether `--` stands apart: from a minus, and from a `!` behind `<`, with which it would begin a comment in a script.
    fn stands_apart_from_decrement(&self) -> bool
        ensures { result ≡ joins (pen_of self.now).ending (pen_of self.now).code minus_minus }
    {
        if self.ends_in_bang() {
            self.ends_in_less_bang()
        } else {
            self.ends_in_minus()
        }
    }

    fn ends_in_less_bang(&self) -> bool
        ensures { result ≡ ends_in_less_bang (pen_of self.now).code }
    {
        self.code.as_bytes().ends_with(b"<!")
    }

    fn ends_in_bang(&self) -> bool
        ensures equal { result ≡ joins (pen_of self.now).ending (pen_of self.now).code equal_equal }
        ensures strict { result ≡ joins (pen_of self.now).ending (pen_of self.now).code equal_equal_equal }
    {
        matches!(
            &self.ending,
            Ending::Operator(Operator::Unary(UnaryOperator::LogicalNot))
        )
    }
}
