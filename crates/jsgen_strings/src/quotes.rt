// The quote that makes the shortest text.
ghost use Rattle.std.specs.Prelude.{◌≡◌, ◌==◌, ◌||◌, if◌then◌else◌};
ghost use Rattle.jsgen_syntax.specs.Strings.{begins_with, cheapest, cheapest_of, costs_more, quote_cost};
ghost use Rattle.jsgen_syntax.specs.Units.{js_units};
ghost use Rattle.jsgen_syntax.specs.declared.quote.Quote.TheVariants as quotes;

use jsgen_syntax::{JsStr, Quote};

/// What the text costs in each quote.
#[derive(Clone, Copy)]
struct Costs {
    single: usize,
    double: usize,
    backtick: usize,
}

/// The quote that needs the fewest backslashes, where an LF counts too, since only backticks need none for it.
pub fn cheapest_quote(value: &JsStr, allow_backtick: bool) -> Quote
    ensures { result ≡ cheapest allow_backtick (js_units value.now) }
{
    let costs = quote_costs(value.as_bytes());
    cheapest_of(allow_backtick, costs.single, costs.double, costs.backtick)
}

fn cheapest_of(allow_backtick: bool, single: usize, double: usize, backtick: usize) -> Quote
    ensures { result ≡ cheapest_of allow_backtick single double backtick }
{
    let is_least = backtick <= double && backtick <= single;
    if allow_backtick && is_least {
        Quote::Backtick
    } else if double <= single {
        Quote::Double
    } else {
        Quote::Single
    }
}

// One pass for the three quotes: most bytes cost nothing in any of them.
fn quote_costs(bytes: &[u8]) -> Costs
    ensures single { result.single ≡ quote_cost quotes.Single bytes.now }
    ensures double { result.double ≡ quote_cost quotes.Double bytes.now }
    ensures backtick { result.backtick ≡ quote_cost quotes.Backtick bytes.now }
{
    let mut single = 0;
    let mut double = 0;
    let mut backtick = 0;
    let mut rest = bytes;
    'bytes: while let Some((first, behind)) = rest.split_first() {
        if may_cost(*first) {
            single += cost_of(Quote::Single, *first, behind);
            double += cost_of(Quote::Double, *first, behind);
            backtick += cost_of(Quote::Backtick, *first, behind);
        }
        rest = behind;
    }
    Costs {
        single,
        double,
        backtick,
    }
}

fn may_cost(byte: u8) -> bool
    ensures { result ≡ (byte == 10 || byte == 34 || byte == 36 || byte == 39 || byte == 96) }
{
    matches!(byte, b'\n' | b'"' | b'$' | b'\'' | b'`')
}

fn cost_of(quote: Quote, first: u8, behind: &[u8]) -> usize
    ensures { result ≡ (if costs_more quote first behind.now then 1 else 0) }
{
    if costs_more(quote, first, behind) {
        1
    } else {
        0
    }
}

fn costs_more(quote: Quote, first: u8, behind: &[u8]) -> bool
    ensures { result ≡ costs_more quote first behind.now }
{
    if first == quote.as_byte() {
        true
    } else if quote.is_backtick() {
        first == b'$' && begins_with_brace(behind)
    } else {
        first == b'\n'
    }
}

// Whether `{` is the next byte.
fn begins_with_brace(bytes: &[u8]) -> bool
    ensures { result ≡ begins_with 123 bytes.now }
{
    match bytes.split_first() {
        Some((first, _)) => *first == b'{',
        None => false,
    }
}
