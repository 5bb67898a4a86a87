ghost use Rattle.std.specs.Prelude.{◌≡◌, ℕ, List, map, Some, None, IfSome, IfNone, length, ◌≤◌};
ghost use Rattle.std.specs.List.{list_all};
ghost use Rattle.pairs.specs.Labels.{label_of};
ghost use Rattle.labels.specs.Faults.{max_labels, begins_name, continues_name, is_name, label_fault, each_fault, first_fault};

use crate::fault::LabelFault;

/// The most labels of a stream: Loki's default for `max_label_names_per_series`.
pub const MAX_LABELS: usize = 15;
/// The longest name, in bytes.
const MAX_NAME: usize = 1_024;
/// The longest value, in bytes.
pub const MAX_VALUE: usize = 2_048;

fn begins_name(byte: u8) -> bool
    ensures { result ≡ begins_name byte }
{
    byte.is_ascii_alphabetic() || byte == b'_'
}

fn continues_name(byte: u8) -> bool
    ensures { result ≡ continues_name byte }
{
    byte.is_ascii_alphanumeric() || byte == b'_'
}

fn all_continue_name(bytes: &[u8]) -> bool
    ensures { result ≡ list_all continues_name bytes.now }
{
    bytes.iter().all(|byte| continues_name(*byte))
}

fn is_name(name: &str) -> bool
    ensures { result ≡ is_name name.now }
{
    match name.as_bytes() {
        [] => false,
        [first, rest @ ..] => begins_name(*first) && all_continue_name(rest),
    }
}

/// What is wrong with a label of this name and a value of this length.
#[tactic(auto, unfolding(crate::specs::Faults::label_fault))]
pub fn label_fault(name: &str, value_len: usize) -> Option<LabelFault>
    ensures { (value : List ℕ) → length value ≡ value_len → result ≡ label_fault (name.now, value) }
{
    if !is_name(name) {
        Some(LabelFault::BadName)
    } else if name.len() > MAX_NAME {
        Some(LabelFault::NameTooLong)
    } else if value_len == 0 {
        Some(LabelFault::EmptyValue)
    } else if value_len > MAX_VALUE {
        Some(LabelFault::ValueTooLong)
    } else {
        None
    }
}

/// The fault of the first label that has one.
pub fn each_fault(pairs: &[(String, String)]) -> Option<LabelFault>
    ensures { result ≡ each_fault (map label_of pairs.now) }
{
    for (name, value) in pairs {
        let fault = label_fault(name.as_str(), value.len());
        if fault.is_some() {
            return fault;
        }
    }
    None
}

/// The first fault other than `NameTwice`: `None` where it remains only to see whether a name is given twice.
#[tactic(auto, unfolding(crate::specs::Faults::first_fault))]
pub fn early_fault(pairs: &[(String, String)]) -> Option<LabelFault>
    ensures some { IfSome result (λ e. first_fault (map label_of pairs.now) ≡ Some e) }
    ensures none { IfNone result ((1 ≤ length pairs.now) × (length pairs.now ≤ max_labels)
        × (each_fault (map label_of pairs.now) ≡ None)) }
{
    if pairs.is_empty() {
        Some(LabelFault::NoLabels)
    } else if pairs.len() > MAX_LABELS {
        Some(LabelFault::TooManyLabels)
    } else {
        each_fault(pairs)
    }
}
