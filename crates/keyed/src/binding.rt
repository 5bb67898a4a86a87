//! The rule of the queues: all messages of a queue fit the key and the number that it is bound to.
ghost use base.Stored.{coded_list};
ghost use Rattle.std.specs.Prelude.{List};
ghost use Rattle.std.specs.Borrow.{ftrue};

use crate::rule::Fits;
use crossbeam_channel::protocol::{Lesson, Outcome, Protocol, Split};
use std::marker::{Brand, Model, PhantomData};

/// What the messages of a queue fit: a key and a number. It exists in the proofs alone.
pub enum Binding<K> {
    /// The queue was just made.
    Unbound,
    /// All messages fit this key and this number.
    Bound(K, u64),
}

/// The messages that were received at an end, the last first. It exists in the proofs alone.
#[derive(Drop)]
pub struct Received<T> {
    pub of: PhantomData<T>,
    pub ghost messages: { List T } by { coded_list T.code },
}

impl<T> Model for Received<T> {
    ghost also_owns = { λ _. ftrue };
}

/// What an end of a queue knows: what all messages fit, and those that it received. It exists in the proofs alone.
pub struct EndView<T, K> {
    pub binding: Binding<K>,
    pub received: Received<T>,
}

/// The rule: either the queue was just made and is empty, or all its messages fit one key and one number, which each
/// end knows.
pub struct Binds<P> {
    of: PhantomData<P>,
}

impl<T, K, P: Fits<T, K>> Protocol<T, EndView<T, K>> for Binds<P> {
    ghost use Rattle.keyed.specs.Bindings.{IsUnusedOrBound, unused};

    ghost holds = { IsUnusedOrBound P.fits };

    ghost first = { unused };
}

/// The binding that a queue gets. The call that makes the queue chooses it.
pub trait Names<K> {
    ghost use Rattle.keyed.specs.declared.binding.Binding.{Binding};

    ghost binding: { Binding K };
}

impl<K> Names<K> for Brand {
    ghost use Rattle.keyed.specs.declared.binding.Binding.TheVariants.{Unbound};

    ghost binding = { Unbound };
}

/// Both ends of a queue that was just made learn what it is bound to.
pub(crate) struct BindsBoth<J> {
    of: PhantomData<J>,
}

impl<T, K, J: Names<K>> Split<EndView<T, K>> for BindsBoth<J> {
    ghost use Rattle.keyed.specs.Bindings.{bound_to};

    ghost left = { λ _. bound_to J.binding };

    ghost right = { λ _. bound_to J.binding };
}

/// Another end knows the same.
pub(crate) struct Same;

impl<T, K> Split<EndView<T, K>> for Same {
    ghost left = { λ v. v };

    ghost right = { λ v. v };
}

/// A message is sent.
pub(crate) struct Sends;

impl<T, K> Outcome<T, EndView<T, K>> for Sends {
    ghost use Rattle.std.specs.Prelude.{◌≡◌};

    ghost then = { λ v _ w. w ≡ v };
}

impl<T, K> Lesson<T, EndView<T, K>> for Sends {
    ghost use Rattle.std.specs.Prelude.{⊤};

    ghost fact = { λ _ _. ⊤ };
}

/// A message is received, and known from then on.
pub(crate) struct Gets<P> {
    of: PhantomData<P>,
}

impl<T, K, P: Fits<T, K>> Outcome<T, EndView<T, K>> for Gets<P> {
    ghost use Rattle.std.specs.Prelude.{◌≡◌};
    ghost use Rattle.keyed.specs.Bindings.{FitsBinding, with_received};

    ghost then = { λ v x w. (w ≡ with_received v x) × FitsBinding P.fits v.binding x };
}

impl<T, K, P: Fits<T, K>> Lesson<T, EndView<T, K>> for Gets<P> {
    ghost use Rattle.std.specs.Prelude.{⊤};

    ghost fact = { λ _ _. ⊤ };
}
