//! What programs say of themselves.
ghost use Rattle.std.specs.Prelude.{◌≡◌, ◌≤◌, MatchOption};
ghost use Rattle.programs.specs.Abouts.{AskAbout, IsQuestion, text_of_question};

use std::io::Write;

/// The release that this is a part of.
pub const VERSION: &str = "0.3.0";

/// What a program is asked about itself.
#[derive(Clone, Copy)]
pub enum Question {
    /// `--version`: of which release it is.
    Version,
    /// `--help`: which words it takes.
    Help,
}

/// Says what a program is, where its words are `--version` or `--help` alone, and gives its exit status: 0, or 1 where
/// that cannot be written, which a line of `errors` says. `None` for other words; then nothing is written. `help` are
/// the lines of its help.
pub fn tell_about<W: Write, E: Write>(
    words: &[String],
    name: &str,
    help: &str,
    output: &mut W,
    errors: &mut E,
) -> Option<u8>
    ensures asked { MatchOption result (¬ AskAbout words.now) (λ status. AskAbout words.now
        × (status ≤ 1)) }
    ensures silent { MatchOption result (W.contents output.new ≡ W.contents output.old) (λ _. Unit {0}) }
{
    let Some(question) = question_in(words) else {
        return None;
    };
    let written = match question {
        Question::Version => writeln!(output, "{name} {VERSION}"),
        Question::Help => output.write_all(help.as_bytes()),
    };
    match written {
        Ok(()) => Some(0),
        Err(_) => {
            let _ = writeln!(errors, "cannot write");
            Some(1)
        }
    }
}

fn question_in(words: &[String]) -> Option<Question>
    ensures { MatchOption result (¬ AskAbout words.now) (λ _. AskAbout words.now) }
{
    match words {
        [word] => question_of(word.as_str()),
        _ => None,
    }
}

fn question_of(word: &str) -> Option<Question>
    ensures { MatchOption result (¬ IsQuestion word.now) (λ question. word.now ≡ text_of_question question) }
{
    match word {
        "--version" => Some(Question::Version),
        "--help" => Some(Question::Help),
        _ => None,
    }
}
