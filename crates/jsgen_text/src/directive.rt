// The quotes of a directive.
ghost use Rattle.std.specs.Prelude.{◌≡◌, ◌==◌, ◌&&◌, not, Some, None, if◌then◌else◌};
ghost use Rattle.std.specs.Str.{chars};
ghost use Rattle.jsgen_syntax.specs.Raw.{directive_quote, quote_beside};
ghost use Rattle.jsgen_syntax.specs.declared.quote.Quote.TheVariants.{Single, Double};

use jsgen_syntax::Quote;

/// The quote for a directive's raw text (ECMA-262, 11.2.1): the one that is wanted, with `"` in place of a backtick, unless the text holds a quote that no backslash escapes. The first such quote chooses the other.
pub fn directive_quote(wanted: Quote, raw: &str) -> Quote
    ensures { result ≡ directive_quote wanted (chars raw.now) }
{
    let mut escaped = false;
    for c in raw.chars() {
        if let Some(quote) = chosen(escaped, c) {
            return quote;
        }
        escaped = escapes(escaped, c);
    }
    without_quotes(wanted)
}

// The quote for a text that holds none.
fn without_quotes(wanted: Quote) -> Quote
    ensures { result ≡ quote_beside wanted None }
{
    match wanted {
        Quote::Backtick => Quote::Double,
        quote => quote,
    }
}

// The quote that the character chooses, if it is a quote.
fn chosen(escaped: bool, c: char) -> Option<Quote>
    ensures { result ≡ (if not escaped && (c == 39) then Some Double else (if not escaped && (c == 34) then Some Single else None)) }
{
    if !escaped && c == '\'' {
        Some(Quote::Double)
    } else if !escaped && c == '"' {
        Some(Quote::Single)
    } else {
        None
    }
}

// Whether the character is a backslash that escapes the next one.
fn escapes(escaped: bool, c: char) -> bool
    ensures { result ≡ ((c == 92) && not escaped) }
{
    c == '\\' && !escaped
}
