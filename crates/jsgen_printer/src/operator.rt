// Operators of every kind.
ghost use Rattle.std.specs.Prelude.{◌≡◌};

use jsgen_syntax::{BinaryOperator, UnaryOperator, UpdateOperator};

/// An operator that is printed by its sign or its word.
#[derive(Clone, Copy, Debug, PartialEq, Eq, Hash)]
pub enum Operator {
    Binary(BinaryOperator),
    Unary(UnaryOperator),
    Update(UpdateOperator),
}

impl From<BinaryOperator> for Operator {
    ghost use Rattle.jsgen_printer.specs.declared.operator.Operator.TheVariants.{Binary};

    ghost from_gives = { λ operator gives. gives ≡ Binary operator };

    fn from(operator: BinaryOperator) -> Operator {
        Operator::Binary(operator)
    }
}

impl From<UnaryOperator> for Operator {
    ghost use Rattle.jsgen_printer.specs.declared.operator.Operator.TheVariants.{Unary};

    ghost from_gives = { λ operator gives. gives ≡ Unary operator };

    fn from(operator: UnaryOperator) -> Operator {
        Operator::Unary(operator)
    }
}

impl From<UpdateOperator> for Operator {
    ghost use Rattle.jsgen_printer.specs.declared.operator.Operator.TheVariants.{Update};

    ghost from_gives = { λ operator gives. gives ≡ Update operator };

    fn from(operator: UpdateOperator) -> Operator {
        Operator::Update(operator)
    }
}
