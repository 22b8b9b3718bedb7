// Names: as they are written, or by the tables.
ghost use Rattle.std.specs.Prelude.{◌≡◌};
ghost use Rattle.std.specs.Str.{chars};
ghost use Rattle.jsgen_tree.specs.Named.{as_written, looked_up, bound, printed_name};
ghost use Rattle.jsgen_model.specs.Items.{name};
ghost use Rattle.jsgen_model.specs.Lay.{name_written, name_mark, spaced};
ghost use Rattle.jsgen_model.specs.Layout.{are_printed_alike};
ghost use Rattle.jsgen_printer.specs.Printer.{pen_of};
ghost use Rattle.jsgen_printer.specs.Steps.{Goes, Lays};

use super::Printer;
use crate::same::is_same;
use jsgen_syntax::Span;

#[tactic(auto, unfolding(crate::specs::Printer::pen_of))]
impl Printer<'_> {
    /// A name as it is written, by no table.
    pub fn print_name(&mut self, span: Span, text: &str)
        ensures { Lays self.old self.new (name span (as_written (chars text.now))) }
    {
        self.print_name_apart(span, text);
    }

    /// A name that is looked up, by the number of its reference.
    pub fn print_reference(&mut self, span: Span, text: &str, reference: Option<u32>)
        ensures { Lays self.old self.new (name span (looked_up reference (chars text.now))) }
    {
        let printed = self.scope.tables.reference_name(reference, text);
        self.print_name_apart(span, printed);
    }

    /// A name that is bound, by the number of its symbol.
    pub fn print_binding(&mut self, span: Span, text: &str, symbol: Option<u32>)
        ensures { Lays self.old self.new (name span (bound symbol (chars text.now))) }
    {
        let printed = self.scope.tables.binding_name(symbol, text);
        self.print_name_apart(span, printed);
    }

    /// Whether a name that is looked up is printed as this one is written.
    pub fn prints_as(&self, text: &str, reference: Option<u32>, written: &str) -> bool
        ensures { result ≡ are_printed_alike (pen_of self.now).style.tables (looked_up reference (chars text.now)) (as_written (chars written.now)) }
    {
        is_same(self.scope.tables.reference_name(reference, text), written)
    }

    /// Whether a name that is bound is printed as this one is written.
    pub fn binds_as(&self, text: &str, symbol: Option<u32>, written: &str) -> bool
        ensures { result ≡ are_printed_alike (pen_of self.now).style.tables (bound symbol (chars text.now)) (as_written (chars written.now)) }
    {
        is_same(self.scope.tables.binding_name(symbol, text), written)
    }

    /// What a name that is looked up is printed as.
    pub fn printed_reference<'t>(&'t self, text: &'t str, reference: Option<u32>) -> &'t str
        ensures { chars result.now ≡ printed_name (pen_of self.now).style.tables (looked_up reference (chars text.now)) }
    {
        self.scope.tables.reference_name(reference, text)
    }

    /// What a name that is bound is printed as.
    pub fn printed_binding<'t>(&'t self, text: &'t str, symbol: Option<u32>) -> &'t str
        ensures { chars result.now ≡ printed_name (pen_of self.now).style.tables (bound symbol (chars text.now)) }
    {
        self.scope.tables.binding_name(symbol, text)
    }

    // A name as it is printed, apart from a word that the code ends in, with the mark of its span.
    fn print_name_apart(&mut self, span: Span, text: &str)
        ensures { Goes self.old self.new (λ pen. name_written (chars text.now) (name_mark span (chars text.now) (spaced pen))) }
    {
        let apart = self.is_apart();
        self.print_if(apart, " ");
        self.print_name_mark(span, text);
        self.print_bare_name(text);
    }
}
