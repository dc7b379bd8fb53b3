//! The commands of a running router, one a line.
ghost use Rattle.std.specs.Prelude.{◌≡◌, option_map};
ghost use Rattle.cli_run.specs.Command.{close_of, command_of, if_close, order_of};

use cli_io::text_of;
use text_values::pieces::{read_number, split_once};

/// A command of a running router.
#[derive(Clone, Copy)]
pub enum Command {
    /// To close the link of this interface.
    Close(u16),
    /// To end.
    End,
}

/// What follows the word `close` and a blank.
fn after_close<'a>(word: &str, rest: &'a str) -> Option<&'a str>
    ensures { option_map (λ text. text.now) result ≡ if_close (word.now, rest.now) }
{
    match word {
        "close" => Some(rest),
        _ => None,
    }
}

/// The link that is to be closed.
#[tactic(auto, unfolding(crate::specs::Command::close_of))]
fn read_close(text: &str) -> Option<Command>
    ensures { result ≡ close_of text.now }
{
    let (word, rest) = split_once(text, ' ')?;
    let rest = after_close(word, rest)?;
    let link = read_number(rest, u16::MAX.into())? as u16;
    Some(Command::Close(link))
}

/// What a text tells to do.
#[tactic(auto, unfolding(crate::specs::Command::order_of))]
fn read_order(text: &str) -> Option<Command>
    ensures { result ≡ order_of text.now }
{
    match text {
        "end" => Some(Command::End),
        _ => read_close(text),
    }
}

/// What a line tells a running router to do, if it is such a line: `close <link>`, the link a plain
/// decimal up to 65535, or `end`.
#[tactic(auto, unfolding(crate::specs::Command::command_of))]
pub fn read_command(line: &[u8]) -> Option<Command>
    ensures { result ≡ command_of line.now }
{
    read_order(text_of(line)?)
}
