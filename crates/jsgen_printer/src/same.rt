// Texts that have the same characters, and so the same bytes.
ghost use Rattle.std.specs.Prelude.{◌≡◌, ◌∷◌, bytes_eq};
ghost use Rattle.std.specs.Str.{chars, encode_utf8_all};

pub(crate) fn is_same(a: &str, b: &str) -> bool
    ensures characters { result ≡ bytes_eq (chars a.now) (chars b.now) }
    ensures bytes { result ≡ bytes_eq a.now (encode_utf8_all (chars b.now)) }
{
    a == b
}

/// Whether a text is the other one behind `#`.
pub(crate) fn is_behind_hash(text: &str, rest: &str) -> bool
    ensures { result ≡ bytes_eq text.now (encode_utf8_all (35 ∷ chars rest.now)) }
{
    match text.strip_prefix('#') {
        Some(own) => is_same(own, rest),
        None => false,
    }
}
