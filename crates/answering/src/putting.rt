//! Answers, put to be sent.
ghost use Rattle.std.specs.Prelude.{◌≡◌, None, Some, IfErr};
ghost use Rattle.requests.specs.Answers.{answer_text, failure_text, fixed_text};
ghost use Rattle.requests.specs.Writing.{WritesBeginning};
ghost use Rattle.answering.specs.Replying.{IsReplied};
ghost use Rattle.answering.specs.Responses.{content_for};
ghost use Rattle.answering.specs.Turns.{HasText};

use crate::responding::NoAnswer;
use accept::CallFault;
use requests::{Answer, Content, FixedAnswer, Outbox, Outgoing, ServeFault, Status, failure_text};

fn content_for(status: Status) -> Content
    ensures { result ≡ content_for status }
{
    if status == Status::Ok {
        Content::Json
    } else {
        Content::Text
    }
}

fn put_answer(
    outbox: &mut Outbox,
    outgoing: &mut Outgoing,
    answer: Answer,
    content: Content,
    closes: bool,
) -> Result<(), ServeFault>
    ensures writes { WritesBeginning (Some outbox.old) (Some outbox.new)
        (answer_text answer.status content None closes answer.body.items) result }
    ensures text { IfErr result (HasText outbox.old) }
{
    outgoing.answer(answer, content, closes)?;
    outbox.say_answer(outgoing)
}

/// Puts a fixed answer there.
pub(crate) fn put_fixed(
    outbox: &mut Outbox,
    outgoing: &mut Outgoing,
    answer: FixedAnswer,
    closes: bool,
) -> Result<(), ServeFault>
    ensures writes { WritesBeginning (Some outbox.old) (Some outbox.new)
        (fixed_text answer closes) result }
    ensures text { IfErr result (HasText outbox.old) }
{
    outgoing.fixed(answer, closes)?;
    outbox.say_answer(outgoing)
}

/// Puts the answer of a failure there. It takes no memory where nothing else is to be sent.
pub(crate) fn put_failure(outbox: &mut Outbox, failure: CallFault) -> Result<(), ServeFault>
    ensures writes { WritesBeginning (Some outbox.old) (Some outbox.new)
        (failure_text failure) result }
    ensures fault { IfErr result (λ e. e ≡ ServeFault.Write) }
    ensures text { IfErr result (HasText outbox.old) }
{
    outbox.say(failure_text(failure))
}

/// Puts the answer to a request there, or that of its failure. Whether the connection ends after it.
pub(crate) fn put_reply(
    outbox: &mut Outbox,
    outgoing: &mut Outgoing,
    answered: Result<Answer, NoAnswer>,
    closes: bool,
) -> Result<bool, ServeFault>
    ensures replied { IsReplied (Some outbox.old) (Some outbox.new) answered closes result }
    ensures text { IfErr result (HasText outbox.old) }
{
    match answered {
        Ok(answer) => {
            let content = content_for(answer.status);
            put_answer(outbox, outgoing, answer, content, closes)?;
            Ok(closes)
        }
        Err(NoAnswer::Failed(failure)) => {
            put_failure(outbox, failure)?;
            Ok(true)
        }
        Err(NoAnswer::GivenUp) => Err(ServeFault::Memory),
    }
}
