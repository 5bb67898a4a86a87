//! How a queue is made for a key and a number.
ghost use Rattle.std.specs.Prelude.{◌≡◌, ◌<◌, IfOk};
ghost use Rattle.keyed.specs.Queues.{sends_to, receives_as};
ghost use Rattle.keyed.specs.declared.binding.Binding.TheVariants.{Bound};

use crate::binding::{Binds, BindsBoth, EndView, Names};
use crate::ends::{QueueReceiver, QueueSender};
use crate::rule::Fits;
use crossbeam_channel::bounded_with;
use std::alloc::{AllocError, Global};
use std::marker::Brand;

/// A queue with room for `room` messages, which all fit this key and this number.
///
/// # Errors
///
/// Want of memory.
pub fn queue<T: Drop, K, P: Fits<T, K>>(
    alloc: Global,
    room: usize,
    key: &K,
    number: usize,
) -> Result<(QueueSender<T, K, P>, QueueReceiver<T, K, P>), AllocError>
    requires { 0 < room }
    ensures { IfOk result (λ ends. (sends_to ends.0 ≡ Bound key.now number)
        × (receives_as ends.1 ≡ Bound key.now number)) }
{
    bound_queue::<T, K, P, Brand>(alloc, room, key, number)
}

// The same, for the binding that `J` names.
fn bound_queue<T: Drop, K, P: Fits<T, K>, J: Names<K>>(
    alloc: Global,
    room: usize,
    key: &K,
    number: usize,
) -> Result<(QueueSender<T, K, P>, QueueReceiver<T, K, P>), AllocError>
    requires room { 0 < room }
    requires binding { J.binding ≡ Bound key.now number }
    ensures { IfOk result (λ ends. (sends_to ends.0 ≡ Bound key.now number)
        × (receives_as ends.1 ≡ Bound key.now number)) }
{
    let _ = key;
    let _ = number;
    let (to, from, mut port) = bounded_with::<T, EndView<T, K>, Binds<P>, Global>(alloc, room)?;
    let other = to.another::<BindsBoth<J>>(&mut port);
    Ok((
        QueueSender { to, port },
        QueueReceiver { from, port: other },
    ))
}
