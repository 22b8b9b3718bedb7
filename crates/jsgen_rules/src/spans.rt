// Where a node stands in the source.
ghost use Rattle.std.specs.Prelude.{◌≡◌, nat_lt, ◌||◌};
ghost use Rattle.std.specs.Str.{chars, encode_utf8_all};
ghost use Rattle.jsgen_model.specs.Valid.{is_offset, spans_characters, is_off_source, source_faults, fault_if};
ghost use Rattle.jsgen_model.specs.declared.fault.TreeFault.TheVariants as faults;
ghost use Rattle.jsgen_rules.specs.Verdict.{verdict};

use jsgen_model::TreeFault;
use jsgen_syntax::Span;

fn is_offset(source: &str, offset: u32) -> bool
    ensures { result ≡ is_offset source.now offset }
{
    source.is_char_boundary(offset as usize)
}

/// Whether the span begins and ends at characters of the source, or at its end.
#[tactic(auto, using(crate::proofs::Bytes::encoded))]
pub(crate) fn spans_characters(source: &str, span: Span) -> bool
    ensures { result ≡ spans_characters (encode_utf8_all (chars source.now)) span }
{
    is_offset(source, span.start) && is_offset(source, span.end)
}

/// Whether the span has to be one of the source, and isn't. One that is empty may stand anywhere.
fn is_off_source(is_mapped: bool, source: &str, span: Span) -> bool
    ensures { result ≡ is_off_source is_mapped (chars source.now) span }
{
    is_mapped && span.start < span.end && !spans_characters(source, span)
}

/// A start isn't after its end, and where spans have to be of the source, one that isn't empty is.
pub fn check_span(is_mapped: bool, source: &str, span: Span) -> Result<(), TreeFault>
    ensures { result ≡ verdict (fault_if (nat_lt span.end span.start || is_off_source is_mapped (chars source.now) span) (faults.Span span.start)) }
{
    if span.end < span.start || is_off_source(is_mapped, source, span) {
        return Err(TreeFault::Span { start: span.start });
    }
    Ok(())
}

/// Offsets of the source fit 32 bits.
#[tactic(auto, using(crate::proofs::Bytes::lengths), unfolding(crate::specs::Verdict::verdict))]
pub fn check_source(source: &str, span: Span) -> Result<(), TreeFault>
    ensures { result ≡ verdict (source_faults span (chars source.now)) }
{
    if source.len() > 4_294_967_295 {
        return Err(TreeFault::Span { start: span.start });
    }
    Ok(())
}
