//! Labels and metadata of words.

use anyhow::{Result, bail};
use labels::{LabelFault, LabelSet};
use pairs::{LabelPairs, Meta, MetaFault};
use rows::{Said, split_pairs};
use segment::SegFault;
use std::alloc::Global;

/// The longest canonical text that is said as it is, in bytes.
const LONGEST: usize = 200;

/// Makes labels or metadata of `{NAME=VALUE,..}`, and says their text, or the fault; or says the texts of faults that
/// no other row has.
pub fn take_word(alloc: Global, word: &str, words: &str, said: &mut Said) -> Result<()> {
    let (_front, pairs) = split_pairs(alloc, words)?;
    match word {
        "labels" => say_labels(LabelSet::new(alloc, LabelPairs::new(pairs)), said),
        "meta" => say_meta(Meta::new(alloc, pairs), said),
        "faults" => say_faults(said),
        _ => bail!("no such word: {word}"),
    }
    Ok(())
}

fn say_labels(made: Result<LabelSet, LabelFault>, said: &mut Said) {
    match made {
        Ok(set) if set.as_str().len() > LONGEST => {
            said.tell(format_args!("({} bytes)\n", set.as_str().len()));
        }
        Ok(set) => {
            said.escape(set.as_str().as_bytes());
            said.put("\n");
        }
        Err(fault) => said.tell(format_args!("{fault}\n")),
    }
}

/// Says the pairs, or that there are none, and whether a line may have them.
fn say_meta(made: Result<Meta, MetaFault>, said: &mut Said) {
    match made {
        Ok(meta) => {
            said.put(if meta.as_slice().is_empty() {
                "none"
            } else {
                ""
            });
            said.pairs(meta.as_slice());
            said.put(if meta.is_short() {
                "\n"
            } else {
                " of no line\n"
            });
        }
        Err(fault) => said.tell(format_args!("{fault}\n")),
    }
}

fn say_faults(said: &mut Said) {
    for fault in [
        LabelFault::Memory,
        LabelFault::BadTenant,
        LabelFault::NotCanonical,
    ] {
        said.tell(format_args!("{fault}\n"));
    }
    said.tell(format_args!("{}\n", SegFault::Memory));
}
