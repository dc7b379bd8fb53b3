//! What a running router prints for its commands.
ghost use Rattle.std.specs.Prelude.{◌≡◌, ◌++◌, OnOk};
ghost use Rattle.cli_run.specs.Closing.{closing_text, closing_word, no_command_text, ready_text};

use cli_io::push_count;
use std::alloc::AllocError;

/// What becomes of a request to close a link.
#[derive(Clone, Copy)]
pub enum Closing {
    /// It is closed: what its forwarder takes from now on isn't sent.
    Closed,
    /// The link's pipe is full; the request may be made again.
    Full,
    /// The router has no such link.
    Unknown,
    /// It was closed before.
    Already,
}

impl Closing {
    /// Its word.
    fn word(self) -> &'static [u8]
        ensures { result.now ≡ closing_word self }
    {
        match self {
            Closing::Closed => b"closed",
            Closing::Full => b"full",
            Closing::Unknown => b"unknown",
            Closing::Already => b"already",
        }
    }
}

/// Adds the line that tells what became of a request to close a link. At `Err` no memory was left,
/// and a beginning of the line may have been added.
pub fn push_closing(text: &mut Vec<u8>, closing: Closing, link: u16) -> Result<(), AllocError>
    ensures { OnOk result (text.new.items ≡ text.old.items ++ closing_text closing link) }
{
    push_count(text, closing.word(), link.into())
}

/// Adds the line that tells that a line was no command. At `Err` no memory was left, and a
/// beginning of the line may have been added.
pub fn push_no_command(text: &mut Vec<u8>) -> Result<(), AllocError>
    ensures { OnOk result (text.new.items ≡ text.old.items ++ no_command_text) }
{
    text.extend_from_slice(b"no command\n")
}

/// Adds the line that tells that the router runs. At `Err` no memory was left, and a beginning of
/// the line may have been added.
pub fn push_ready(text: &mut Vec<u8>) -> Result<(), AllocError>
    ensures { OnOk result (text.new.items ≡ text.old.items ++ ready_text) }
{
    text.extend_from_slice(b"ready\n")
}
