ghost use Rattle.std.specs.Prelude.{◌≡◌, ◌++◌, ◌<◌, ◌⊎◌, length, map, OnOk, IfOk, IfErr, None, Some, string_bytes};
ghost use Rattle.std.specs.List.{flat_map};
ghost use Rattle.std.specs.Char.{encode_utf8};
ghost use Rattle.pairs.specs.Labels.{label_of};
ghost use Rattle.labels.specs.Canonical.{escape, label_text, tail_text, set_text, IsTextOf};
ghost use Rattle.labels.specs.Faults.{first_fault};

use crate::checks::early_fault;
use crate::fault::LabelFault;
use pairs::{names_rise, sort};
use std::alloc::{AllocError, Global};

#[tactic(auto, using(crate::proofs::Escapes::escape_char))]
fn push_escaped(out: &mut String, character: char) -> Result<(), AllocError>
    ensures { OnOk result (string_bytes out.new
        ≡ string_bytes out.old ++ flat_map escape (encode_utf8 character)) }
{
    if character == '\\' {
        out.push_str("\\\\")
    } else if character == '"' {
        out.push_str("\\\"")
    } else if character == '\n' {
        out.push_str("\\n")
    } else {
        out.push(character)
    }
}

fn push_value(out: &mut String, value: &str) -> Result<(), AllocError>
    ensures { OnOk result (string_bytes out.new
        ≡ string_bytes out.old ++ flat_map escape value.now) }
{
    for character in value.chars() {
        push_escaped(out, character)?;
    }
    Ok(())
}

fn push_label(out: &mut String, name: &str, value: &str) -> Result<(), AllocError>
    ensures { OnOk result (string_bytes out.new
        ≡ string_bytes out.old ++ label_text (name.now, value.now)) }
{
    out.push_str(name)?;
    out.push_str("=\"")?;
    push_value(out, value)?;
    out.push('"')
}

/// The length of the text if no byte were escaped: a guess for its capacity.
fn room_for(pairs: &[(String, String)]) -> usize {
    let mut room = 0usize;
    for (name, value) in pairs {
        room = room
            .saturating_add(name.len())
            .saturating_add(value.len())
            .saturating_add("=\"\", ".len());
    }
    room
}

fn push_rest(out: &mut String, pairs: &[(String, String)]) -> Result<(), AllocError>
    ensures { OnOk result (string_bytes out.new
        ≡ string_bytes out.old ++ tail_text (map label_of pairs.now)) }
{
    for (name, value) in pairs {
        out.push_str(", ")?;
        push_label(out, name.as_str(), value.as_str())?;
    }
    out.push('}')
}

/// The text of these labels, as they stand.
pub fn set_text(alloc: Global, pairs: &[(String, String)]) -> Result<String, AllocError>
    requires { 0 < length pairs.now }
    ensures { IfOk result (λ t. string_bytes t ≡ set_text (map label_of pairs.now)) }
{
    let mut out = String::with_capacity(alloc, room_for(pairs))?;
    let (name, value) = &pairs[0];
    out.push('{')?;
    push_label(&mut out, name.as_str(), value.as_str())?;
    push_rest(&mut out, &pairs[1..])?;
    Ok(out)
}

/// The canonical text of the labels, or their first fault.
pub fn canonical_text(alloc: Global, mut pairs: Vec<(String, String)>) -> Result<String, LabelFault>
    ensures ok { IfOk result (λ t. (first_fault (map label_of pairs.items) ≡ None)
        × IsTextOf (string_bytes t) (map label_of pairs.items)) }
    ensures cause { IfErr result (λ e. (e ≡ LabelFault.Memory)
        ⊎ (first_fault (map label_of pairs.items) ≡ Some e)) }
{
    if let Some(fault) = early_fault(&pairs) {
        return Err(fault);
    }
    sort(&mut pairs);
    if !names_rise(&pairs) {
        return Err(LabelFault::NameTwice);
    }
    Ok(set_text(alloc, &pairs)?)
}
