ghost use Rattle.std.specs.Prelude.{◌≡◌, ◌⊎◌, ◌<◌, ◌^◌, [], true, map, IfOk, IfErr, IfSome, IsOk, MatchOption};
ghost use Rattle.std.specs.List.{list_all};
ghost use Rattle.std.specs.List.Sorted.{IsPermutation};
ghost use Rattle.std.specs.Cmp as order;
ghost use Rattle.pairs.specs.Labels.{label_of};
ghost use Rattle.pairs.specs.Names.{NamesRise};
ghost use Rattle.pairs.specs.Names.{repeats_name};
ghost use Rattle.pairs.specs.Metas.{same_pairs, same_pairs-equiv, meta_room, is_short_pair, is_short_meta};
ghost use Rattle.pairs.specs.declared.meta.MetaFault.TheVariants.{Memory, NameTwice};

use crate::names::{names_rise, sort};
use std::alloc::{AllocError, Global};
use std::marker::Model;
use thiserror::Error;

/// Why structured metadata is refused. `Memory` may come at any point.
#[derive(Clone, Copy, Debug, Error)]
pub enum MetaFault {
    /// A name that is given twice.
    #[error("metadata name twice")]
    NameTwice,
    /// The allocator gave no memory.
    #[error("out of memory")]
    Memory,
}

impl From<AllocError> for MetaFault {
    ghost from_gives = { λ _ e. e ≡ Memory };

    fn from(_refused: AllocError) -> MetaFault {
        MetaFault::Memory
    }
}

/// The structured metadata of a line: names with values, which are any texts, the names in strictly rising byte order.
/// Contracts see the pairs of byte lists. Without a pair it takes no memory.
#[derive(Debug, Drop)]
pub struct Meta {
    // (most lines have none, so an empty one is as small as possible)
    pairs: Option<Box<Vec<(String, String)>>>,
}

impl Model for Meta {
    ghost use Rattle.std.specs.Prelude.{List};
    ghost use Rattle.pairs.specs.Labels.{Label};
    ghost use Rattle.pairs.specs.Names.{NamesRise};
    ghost use Rattle.pairs.specs.Metas.{pairs_in};

    ghost Value = { List Label };

    ghost view = { λ m. pairs_in m.pairs };

    ghost invariant = { λ m. NamesRise (pairs_in m.pairs) };
}

/// The metadata of these pairs, whose names rise.
fn boxed(alloc: Global, pairs: Vec<(String, String)>) -> Result<Meta, AllocError>
    requires { NamesRise (map label_of pairs.items) }
    ensures { IfOk result (λ meta. meta ≡ map label_of pairs.items) }
{
    match Box::new(alloc, pairs) {
        Ok(pairs) => Ok(Meta { pairs: Some(pairs) }),
        Err(refused) => Err(AllocError::from(refused)),
    }
}

/// A copy of these pairs.
fn copied(pairs: &Vec<(String, String)>) -> Result<Vec<(String, String)>, AllocError>
    ensures { IfOk result (λ copies. map label_of copies.items ≡ map label_of pairs.now.items) }
{
    pairs.clone()
}

fn are_short(pairs: &[(String, String)]) -> bool
    ensures { result ≡ list_all is_short_pair (map label_of pairs.now) }
{
    for (name, value) in pairs {
        if name.is_empty() || name.len() > Meta::MAX_NAME || value.len() > Meta::MAX_VALUE {
            return false;
        }
    }
    true
}

impl Meta {
    /// The most pairs of a line's metadata: this project's profile, as are the two below.
    pub const MAX_PAIRS: usize = 16;
    /// The longest name of a pair, in bytes.
    pub const MAX_NAME: usize = 256;
    /// The longest value of a pair, in bytes.
    pub const MAX_VALUE: usize = 1_024;

    /// No metadata.
    pub fn none() -> Meta
        ensures { result ≡ [] }
    {
        Meta { pairs: None }
    }

    /// The metadata of these pairs, given in any order. From Loki's documentation: structured metadata are names with
    /// values that come with a line. That no name is given twice is this project's profile.
    #[tactic(auto, using(crate::proofs::Metas::rise_when_below, crate::proofs::Metas::pairs_when_sorted))]
    pub fn new(alloc: Global, mut pairs: Vec<(String, String)>) -> Result<Meta, MetaFault>
        ensures pairs { IfOk result (IsPermutation (map label_of pairs.items)) }
        ensures none { pairs.items ≡ [] → IsOk result }
        ensures rise { IfOk result NamesRise }
        ensures cause { IfErr result (λ e. (e ≡ Memory)
            ⊎ ((e ≡ NameTwice) × (repeats_name (map label_of pairs.items) ≡ true))) }
    {
        if pairs.is_empty() {
            return Ok(Meta::none());
        }
        sort(&mut pairs);
        if !names_rise(&pairs) {
            return Err(MetaFault::NameTwice);
        }
        Ok(boxed(alloc, pairs)?)
    }

    /// The metadata of these pairs as they stand: `None` where a name is not above the one before it.
    #[tactic(auto, using(crate::proofs::Metas::rise_when_below))]
    pub fn in_order(alloc: Global, pairs: Vec<(String, String)>) -> Result<Option<Meta>, AllocError>
        ensures pairs { IfOk result (λ o. MatchOption o (¬ NamesRise (map label_of pairs.items))
            (λ meta. meta ≡ map label_of pairs.items)) }
        ensures rise { IfOk result (λ o. IfSome o NamesRise) }
    {
        if pairs.is_empty() {
            return Ok(Some(Meta::none()));
        }
        if !names_rise(&pairs) {
            return Ok(None);
        }
        Ok(Some(boxed(alloc, pairs)?))
    }

    /// The bytes that the pairs take in a log: each text, and its length in two bytes.
    pub fn room(&self) -> u64
        requires { meta_room self.now < 2 ^ 64 }
        ensures { result ≡ meta_room self.now }
    {
        let mut room = 0;
        for (name, value) in self.as_slice() {
            room += 4 + name.len() as u64 + value.len() as u64;
        }
        room
    }

    /// Whether a line may have it: at most `MAX_PAIRS` pairs, with names of 1 to `MAX_NAME` bytes and values of at most
    /// `MAX_VALUE`.
    pub fn is_short(&self) -> bool
        ensures { result ≡ is_short_meta self.now }
    {
        let pairs = self.as_slice();
        pairs.len() <= Meta::MAX_PAIRS && are_short(pairs)
    }

    /// The pairs, in order.
    pub fn as_slice(&self) -> &[(String, String)]
        ensures pairs { map label_of result.now ≡ self.now }
        ensures rise { NamesRise self.now }
    {
        match &self.pairs {
            Some(pairs) => pairs.as_slice(),
            None => &[],
        }
    }
}

impl Clone for Meta {
    ghost is_clone = { λ a b. b ≡ a };

    fn clone(&self) -> Result<Meta, AllocError> {
        match &self.pairs {
            Some(pairs) => boxed(*pairs.allocator(), copied(pairs)?),
            None => Ok(Meta::none()),
        }
    }
}

impl PartialEq for Meta {
    ghost eq = { same_pairs };

    ghost laws = { order.partial_equiv_from_equiv same_pairs-equiv };

    #[tactic(auto, using(crate::proofs::Metas::same_when_equal))]
    fn eq(&self, other: &Meta) -> bool {
        self.as_slice() == other.as_slice()
    }
}

impl Eq for Meta {
    ghost laws = { same_pairs-equiv };
}
