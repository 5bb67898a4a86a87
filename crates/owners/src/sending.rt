//! How messages go back to their passes.
ghost use Rattle.owners.specs.Homes.{Homed};
ghost use Rattle.owners.specs.Mailboxes.{ArePlaces};
ghost use Rattle.owners.specs.Bonds.{AreBoundFrom};

use crate::mailbox::take_at;
use crate::messages::{AnswerSender, ShardMessage};
use std::sync::Wait;

/// Sends each message back to its pass. Where that is gone, the message is dropped.
pub(crate) fn send_all<R: Wait>(
    rt: &R,
    places: &mut Vec<Option<ShardMessage>>,
    answers: &mut Vec<AnswerSender>,
)
    requires { (home : Homed) × ArePlaces home places.old.items
        × AreBoundFrom home answers.old.items }
    ensures places { (home : Homed) → ArePlaces home places.old.items
        → ArePlaces home places.new.items }
    ensures answers { (home : Homed) → AreBoundFrom home answers.old.items
        → AreBoundFrom home answers.new.items }
{
    for pass in 0..answers.len() {
        if pass >= places.len() {
            return;
        }
        if let Some(message) = take_at(places, pass) {
            drop(answers[pass].send(rt, message));
        }
    }
}
