// Where a node is printed.
ghost use Rattle.std.specs.Prelude.{◌≡◌};
ghost use Rattle.jsgen_place.specs.Place.{free, at_level, child, left_operand, in_brackets, among_statements, within_statement, loop_head, member, behind_private, with_calls, quoted_plainly, linked, is_at_link, called, tag, tagged, constructed, within, wraps, update_level, is_forbidden, binary_wraps, continues_chain, logical_wraps, call_wraps, chain_wraps, chain_place, arrow_wraps, plainly};

use jsgen_syntax::{BinaryOperator, GetPrecedence, LogicalOperator, Precedence};

/// What an expression's surroundings forbid.
#[derive(Clone, Copy)]
pub struct Context {
    /// `in`, as in the first part of a loop's head (ECMA-262, 14.7.4).
    pub forbids_in: bool,
    /// A call, as in what `new` stands before (ECMA-262, 13.3).
    pub forbids_call: bool,
    /// A template stands behind a tag, which sees its raw text (ECMA-262, 13.3.11).
    pub is_tagged: bool,
}

impl Context {
    pub const FREE: Context = Context {
        forbids_in: false,
        forbids_call: false,
        is_tagged: false,
    };
}

/// Where a node stands.
#[derive(Clone, Copy)]
pub struct Place {
    /// At or above its own level an expression needs parentheses.
    pub level: Precedence,
    pub context: Context,
    /// Among statements, where a declaration is one.
    pub in_list: bool,
    /// The left operand of an operation, whose own operator goes on with no chain.
    pub left_operand: bool,
    /// A string that stands here is never in backticks.
    pub plain_quotes: bool,
}

impl Place {
    /// The place of what is printed by itself, or of a child, at a level.
    pub fn at_level(level: Precedence, context: Context) -> Place
        ensures { result ≡ at_level level context }
    {
        Place {
            level,
            context,
            in_list: false,
            left_operand: false,
            plain_quotes: false,
        }
    }

    pub fn among_statements() -> Place
        ensures { result ≡ among_statements }
    {
        Place {
            in_list: true,
            ..Place::in_brackets(Precedence::Lowest)
        }
    }

    /// A block or an `if` that goes on with a line.
    pub fn within_statement() -> Place
        ensures { result ≡ within_statement }
    {
        Place::in_brackets(Precedence::Lowest)
    }

    /// A child's place, under the same context.
    pub fn child(self, level: Precedence) -> Place
        ensures { result ≡ child level self }
    {
        Place::at_level(level, self.context)
    }

    /// A left operand's place, under the same context.
    pub fn left_operand(self, level: Precedence) -> Place
        ensures { result ≡ left_operand level self }
    {
        Place {
            left_operand: true,
            ..self.child(level)
        }
    }

    /// A child's place in brackets, where nothing is forbidden.
    pub fn in_brackets(level: Precedence) -> Place
        ensures { result ≡ in_brackets level }
    {
        Place::at_level(level, Context::FREE)
    }

    /// The place of what stands first in the head of a loop, where `in` is forbidden (ECMA-262, 14.7.4).
    pub fn loop_head() -> Place
        ensures { result ≡ loop_head }
    {
        let context = Context {
            forbids_in: true,
            ..Context::FREE
        };
        Place::at_level(Precedence::Lowest, context)
    }

    /// The place of a string that is never in backticks, and of names beside it, as in an import.
    pub fn plainly() -> Place
        ensures { result ≡ plainly }
    {
        Place {
            plain_quotes: true,
            ..Place::in_brackets(Precedence::Lowest)
        }
    }

    /// The place of a member of a class, among others.
    pub fn member(self) -> Place
        ensures { result ≡ member self }
    {
        Place {
            in_list: true,
            ..self.child(Precedence::Lowest)
        }
    }

    /// The place of what stands behind the `in` of a private name, where no other `in` may stand.
    pub fn behind_private() -> Place
        ensures { result ≡ behind_private }
    {
        let context = Context {
            forbids_in: true,
            ..Context::FREE
        };
        Place::at_level(Precedence::Compare, context)
    }

    /// The same place, where calls may stand.
    pub fn with_calls(self) -> Place
        ensures { result ≡ with_calls self }
    {
        Place {
            context: Context {
                forbids_call: false,
                ..self.context
            },
            ..self
        }
    }

    /// The place of the object of a member.
    pub fn linked(self) -> Place
        ensures { result ≡ linked self }
    {
        self.child(Precedence::Postfix)
    }

    /// Whether it is at the level of the object of a member.
    pub fn is_at_link(self) -> bool
        ensures { result ≡ is_at_link self }
    {
        self.level == Precedence::Postfix
    }

    /// The place of what is called: calls may stand in it.
    pub fn called(self) -> Place
        ensures { result ≡ called self }
    {
        self.child(Precedence::Postfix).with_calls()
    }

    /// The place of what stands before a template that it is handed: of what is forbidden, calls alone stay forbidden.
    pub fn tag(self) -> Place
        ensures { result ≡ tag self }
    {
        let context = Context {
            forbids_call: self.context.forbids_call,
            ..Context::FREE
        };
        Place::at_level(Precedence::Postfix, context)
    }

    /// The place of a template behind its tag, which sees its raw text.
    pub fn tagged(self) -> Place
        ensures { result ≡ tagged self }
    {
        Place {
            context: Context {
                is_tagged: true,
                ..self.context
            },
            ..self
        }
    }

    /// The place of what `new` stands before: no call may stand in it.
    pub fn constructed(self) -> Place
        ensures { result ≡ constructed self }
    {
        let context = Context {
            forbids_call: true,
            ..self.context
        };
        Place::at_level(Precedence::New, context)
    }

    /// The place within parentheses, where the test holds.
    pub fn within(self, test: bool) -> Place
        ensures { result ≡ within test self }
    {
        if test {
            Place {
                context: Context {
                    forbids_in: false,
                    ..self.context
                },
                ..self
            }
        } else {
            self
        }
    }

    /// The same place, where a string is never in backticks, if the test holds.
    pub fn quoted_plainly(self, test: bool) -> Place
        ensures { result ≡ quoted_plainly test self }
    {
        Place {
            plain_quotes: test,
            ..self
        }
    }

    /// The place of a chain's links, within parentheses where the test holds.
    pub fn chain(self, test: bool) -> Place
        ensures { result ≡ chain_place test self }
    {
        if test {
            Place::in_brackets(Precedence::Lowest)
        } else {
            self
        }
    }

    /// Whether an expression of this level stands in parentheses here.
    pub fn wraps(self, own: Precedence) -> bool
        ensures { result ≡ wraps own self }
    {
        self.level >= own
    }

    /// Whether an arrow function stands in parentheses here, by whether it is marked so.
    pub fn wraps_arrow(self, pife: bool) -> bool
        ensures { result ≡ arrow_wraps pife self }
    {
        pife || self.wraps(Precedence::Assign)
    }

    fn is_forbidden(self, operator: BinaryOperator) -> bool
        ensures { result ≡ is_forbidden operator self }
    {
        match operator {
            BinaryOperator::In => self.context.forbids_in,
            _ => false,
        }
    }

    /// Whether an operation by this operator stands in parentheses here.
    pub fn wraps_binary(self, operator: BinaryOperator) -> bool
        ensures { result ≡ binary_wraps operator self }
    {
        self.wraps(operator.precedence()) || self.is_forbidden(operator)
    }

    /// Whether a call stands in parentheses here.
    pub fn wraps_call(self) -> bool
        ensures { result ≡ call_wraps self }
    {
        self.wraps(Precedence::New) || self.context.forbids_call
    }

    /// Whether a chain stands in parentheses here.
    pub fn wraps_chain(self) -> bool
        ensures { result ≡ chain_wraps self }
    {
        self.wraps(Precedence::Postfix) || self.context.forbids_call
    }

    fn continues_chain(self, operator: LogicalOperator) -> bool
        ensures { result ≡ continues_chain operator self }
    {
        !self.left_operand && operator.precedence() == self.level
    }

    /// Whether an operation by this operator stands in parentheses here.
    pub fn wraps_logical(self, operator: LogicalOperator) -> bool
        ensures { result ≡ logical_wraps operator self }
    {
        self.wraps(operator.precedence()) && !self.continues_chain(operator)
    }
}

/// The level of an update, by whether its operator stands before its operand.
pub fn update_level(prefix: bool) -> Precedence
    ensures { result ≡ update_level prefix }
{
    if prefix {
        Precedence::Prefix
    } else {
        Precedence::Postfix
    }
}
