//! Lines that are text.
ghost use Rattle.std.specs.Prelude.{◌≡◌, option_map};
ghost use Rattle.cli_io.specs.Text.{as_text};

/// A line as text, if it is UTF-8.
pub fn text_of(line: &[u8]) -> Option<&str>
    ensures { option_map (λ text. text.now) result ≡ as_text line.now }
{
    match str::from_utf8(line) {
        Ok(text) => Some(text),
        Err(_) => None,
    }
}
