//! The fields of a head that the tests look at.
ghost use Rattle.std.specs.Prelude.{◌≡◌, List, ℕ, [], ◌∷◌, ◌++◌, length, map, reverse, option_map, All};
ghost use Rattle.httparse.specs.Grammar.{skip_ows, trim_ows};
ghost use Rattle.httparse.specs.Spans.{IsHeaderWithin, header_bytes};
ghost use Rattle.requests.specs.Fields.{is_same_word, values_of, has_field, lists, has_word, before, after_mark};
ghost use Rattle.requests.specs.Finding.{Finds};

use httparse::is_space_or_tab;
use httparse::spans::HeaderSpan;

/// The fields of one name.
#[derive(Clone, Copy)]
pub(crate) enum Found<'a> {
    Nothing,
    /// The value of the only one.
    One(&'a [u8]),
    Many,
}

/// Whether the words are the same, apart from the case of ASCII letters.
pub(crate) fn is_same_word(a: &[u8], b: &[u8]) -> bool
    ensures { result ≡ is_same_word a.now b.now }
{
    a.eq_ignore_ascii_case(b)
}

/// What comes before the first mark.
pub(crate) fn before(bytes: &[u8], mark: u8) -> &[u8]
    ensures { result.now ≡ before mark bytes.now }
{
    for index in 0..bytes.len() {
        if bytes[index] == mark {
            return &bytes[..index];
        }
    }
    bytes
}

/// The fields of this name among those of a head in `bytes`.
pub(crate) fn find<'a>(bytes: &'a [u8], fields: &[HeaderSpan], name: &[u8]) -> Found<'a>
    requires { All (IsHeaderWithin (length bytes.now)) fields.now }
    ensures { Finds (values_of name.now (map (header_bytes bytes.now) fields.now)) result }
{
    let mut value: Option<&'a [u8]> = None;
    for field in fields {
        if is_same_word(field.name.of(bytes), name) {
            if value.is_some() {
                return Found::Many;
            }
            value = Some(field.value.of(bytes));
        }
    }
    match value {
        Some(only) => Found::One(only),
        None => Found::Nothing,
    }
}

/// Whether there is a field of this name.
pub(crate) fn has_field(bytes: &[u8], fields: &[HeaderSpan], name: &[u8]) -> bool
    requires { All (IsHeaderWithin (length bytes.now)) fields.now }
    ensures { result ≡ has_field name.now (map (header_bytes bytes.now) fields.now) }
{
    for field in fields {
        if is_same_word(field.name.of(bytes), name) {
            return true;
        }
    }
    false
}

// What comes after the first mark.
fn after(bytes: &[u8], mark: u8) -> Option<&[u8]>
    ensures { option_map (λ b. b.now) result ≡ after_mark mark bytes.now }
{
    let mut rest = bytes;
    while let [first, more @ ..] = rest {
        if *first == mark {
            return Some(more);
        }
        rest = more;
    }
    None
}

// Whether a list of words, between which commas stand, has this one.
fn lists(list: &[u8], word: &[u8]) -> bool
    ensures { result ≡ lists word.now list.now }
{
    let mut rest = list;
    while let Some(more) = after(rest, b',') {
        if is_same_word(trim_spaces(before(rest, b',')), word) {
            return true;
        }
        rest = more;
    }
    is_same_word(trim_spaces(before(rest, b',')), word)
}

/// Whether a field has this name and lists this word.
pub(crate) fn has_word(bytes: &[u8], fields: &[HeaderSpan], name: &[u8], word: &[u8]) -> bool
    requires { All (IsHeaderWithin (length bytes.now)) fields.now }
    ensures { result ≡ has_word name.now word.now (map (header_bytes bytes.now) fields.now) }
{
    for field in fields {
        if is_same_word(field.name.of(bytes), name) {
            if lists(field.value.of(bytes), word) {
                return true;
            }
        }
    }
    false
}

fn trim_start(bytes: &[u8]) -> &[u8]
    ensures { result.now ≡ skip_ows bytes.now }
{
    let mut rest = bytes;
    while let [first, more @ ..] = rest
        && is_space_or_tab(*first)
    {
        rest = more;
    }
    rest
}

fn trim_end(bytes: &[u8]) -> &[u8]
    ensures { result.now ≡ reverse (skip_ows (reverse bytes.now)) }
{
    let mut rest = bytes;
    while let [more @ .., last] = rest
        && is_space_or_tab(*last)
    {
        rest = more;
    }
    rest
}

/// The bytes without the spaces and tabs at both ends.
#[tactic(auto, unfolding(httparse::specs::Grammar::trim_ows))]
pub(crate) fn trim_spaces(bytes: &[u8]) -> &[u8]
    ensures { result.now ≡ trim_ows bytes.now }
{
    trim_end(trim_start(bytes))
}
