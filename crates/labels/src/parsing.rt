ghost use Rattle.std.specs.Prelude.{◌≡◌, ◌≢◌, ◌++◌, ◌-◌, ℕ, List, [], ◌∷◌, length, ◌≤◌, MatchOption, MatchBool, IfSome, IfNone};
ghost use Rattle.std.specs.List.{flat_map, AllByRecursion};
ghost use Rattle.std.specs.Char.{len_utf8};
ghost use Rattle.std.specs.Cmp.Lexicographic.{slice_cmp};
ghost use Rattle.std.specs.Ordering.{nat_cmp, is_lt};
ghost use Rattle.std.specs.Str.{chars, IsUtf8};
ghost use Rattle.pairs.specs.Labels.{Label};
ghost use Rattle.labels.specs.Faults.{max_labels};
ghost use Rattle.labels.specs.Canonical.{escape, label_text, IsLabel, IsCanonical, IsCanonicalText, EndsSet};

use crate::checks::{MAX_LABELS, MAX_VALUE, label_fault};

/// The first character, and what follows it.
fn read_character(text: &str) -> Option<(char, &str)>
    ensures { MatchOption result (chars text.now ≡ []) (λ r. chars text.now ≡ r.0 ∷ chars r.1.now) }
{
    let mut characters = text.chars();
    let character = characters.next()?;
    Some((character, characters.as_str()))
}

/// The character that this one stands for after a `\`.
fn unescape(character: char) -> Option<char>
    ensures some { IfSome result (λ c. escape c ≡ 92 ∷ character ∷ []) }
    ensures none { IfNone result ((c : ℕ) → escape c ≢ 92 ∷ character ∷ []) }
{
    if character == '\\' || character == '"' {
        Some(character)
    } else if character == 'n' {
        Some('\n')
    } else {
        None
    }
}

/// One character of a value, by its length in bytes, and what follows its text.
fn read_escaped(text: &str) -> Option<(usize, &str)>
    ensures some { IfSome result (λ r. (c : ℕ) × (chars text.now ≡ escape c ++ chars r.1.now)
        × (r.0 ≡ len_utf8 c)) }
    ensures none { IfNone result ((c : ℕ) (cs : List ℕ) → chars text.now ≢ escape c ++ cs) }
{
    let (character, rest) = read_character(text)?;
    if character == '"' || character == '\n' {
        return None;
    }
    if character != '\\' {
        return Some((character.len_utf8(), rest));
    }
    let (character, rest) = read_character(rest)?;
    let unescaped = unescape(character)?;
    Some((unescaped.len_utf8(), rest))
}

/// What follows the mark.
fn after<'a>(text: &'a str, mark: &str) -> Option<&'a str>
    ensures { MatchOption result ((rest : List ℕ)
        → text.now ≢ mark.now ++ rest) (λ r. text.now ≡ mark.now ++ r.now) }
{
    text.strip_prefix(mark)
}

/// A value by its length in bytes, and what follows its closing quote. `None` also where it is too long.
fn read_value(text: &str) -> Option<(usize, &str)>
    ensures some { IfSome result (λ r. (value : List ℕ) × IsUtf8 value × (length value ≡ r.0)
        × (text.now ≡ flat_map escape value ++ 34 ∷ r.1.now)) }
    ensures none { IfNone result ((value rest : List ℕ) → IsUtf8 value → length value ≤ 2048
        → text.now ≢ flat_map escape value ++ 34 ∷ rest) }
{
    let mut length = 0;
    let mut rest = text;
    while let Some((width, next)) = read_escaped(rest) {
        length += width;
        if length > MAX_VALUE {
            return None;
        }
        rest = next;
    }
    let left = after(rest, "\"")?;
    Some((length, left))
}

/// What comes before the first `=`, and what follows it.
fn cut_at_equals(text: &str) -> Option<(&str, &str)>
    ensures { MatchOption result (AllByRecursion (λ b. b ≢ 61) text.now)
        (λ r. (text.now ≡ r.0.now ++ 61 ∷ r.1.now) × AllByRecursion (λ b. b ≢ 61) r.0.now) }
{
    text.split_once('=')
}

/// The name of the label at the front, and what follows the label.
fn read_label(text: &str) -> Option<(&str, &str)>
    ensures some { IfSome result (λ r. (value : List ℕ) × IsLabel (r.0.now, value)
        × (text.now ≡ label_text (r.0.now, value) ++ r.1.now)) }
    ensures none { IfNone result ((p : Label) (rest : List ℕ) → IsLabel p
        → text.now ≢ label_text p ++ rest) }
{
    let (name, rest) = cut_at_equals(text)?;
    let (length, rest) = read_value(after(rest, "\"")?)?;
    match label_fault(name, length) {
        None => Some((name, rest)),
        Some(_) => None,
    }
}

fn is_below(name: &str, next: &str) -> bool
    ensures { result ≡ is_lt (slice_cmp nat_cmp name.now next.now) }
{
    name < next
}

/// Whether the text completes a label set's text, after a first label of this name.
fn ends_set(first: &str, text: &str) -> bool
    ensures { MatchBool result (EndsSet first.now (max_labels - 1) text.now)
        (¬ (EndsSet first.now (max_labels - 1) text.now)) }
{
    let mut last = first;
    let mut rest = text;
    for _count in 1..MAX_LABELS {
        if rest == "}" {
            return true;
        }
        let Some(label) = after(rest, ", ") else {
            return false;
        };
        let Some((name, left)) = read_label(label) else {
            return false;
        };
        if !is_below(last, name) {
            return false;
        }
        last = name;
        rest = left;
    }
    rest == "}"
}

/// Whether the text is a label set's canonical text.
pub fn is_canonical(text: &str) -> bool
    ensures { MatchBool result (IsCanonicalText text.now)
        ((ps : List Label) → ¬ (IsCanonical text.now ps)) }
{
    let Some(label) = after(text, "{") else {
        return false;
    };
    let Some((name, rest)) = read_label(label) else {
        return false;
    };
    ends_set(name, rest)
}
