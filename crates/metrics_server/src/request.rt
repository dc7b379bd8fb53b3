//! What a request asks for.

ghost use Rattle.std.specs.Prelude.{◌≡◌, true, MatchBool};
ghost use Rattle.metrics_server.specs.Request.{AskedBy, Asks, IsGet, IsPage};

use httparse::Status;
use httparse::spans::{EMPTY_HEADER_SPAN, parse_request};

/// More fields than a head of 8,192 bytes has, since a field takes three at least: a letter of its name, a
/// colon and a line's end.
const FIELDS: usize = 2730;

/// What the bytes that came so far ask for.
#[derive(Clone, Copy, PartialEq, Eq)]
pub enum Asked {
    /// The head isn't whole yet.
    Unfinished,
    /// The page.
    Metrics,
    /// Another path.
    OtherPath,
    /// The page, but not to get it.
    OtherMethod,
    /// No request can come of them, or one whose head is longer than 8,192 bytes.
    Unreadable,
}

// Whether a request's target is the page, with a query or without.
fn is_page(target: &[u8]) -> bool
    ensures { MatchBool result (IsPage target.now) (IsPage target.now → ⊥) }
{
    target == b"/metrics".as_slice() || target.starts_with(b"/metrics?")
}

fn is_get(method: &[u8]) -> bool
    ensures { MatchBool result (IsGet method.now) (IsGet method.now → ⊥) }
{
    method == b"GET".as_slice()
}

// What a request of a method for a target asks for.
fn asked_by(method: &[u8], target: &[u8]) -> Asked
    ensures { AskedBy method.now target.now result }
{
    if !is_page(target) {
        return Asked::OtherPath;
    }
    if !is_get(method) {
        return Asked::OtherMethod;
    }
    Asked::Metrics
}

/// What bytes ask for by the grammar of HTTP/1.0 and 1.1.
pub fn request_of(bytes: &[u8]) -> Asked
    ensures { Asks bytes.now result }
{
    let mut headers = [EMPTY_HEADER_SPAN; FIELDS];
    match parse_request(bytes, &mut headers) {
        Ok(Status::Complete(head)) => asked_by(head.method.of(bytes), head.path.of(bytes)),
        Ok(Status::Partial) => Asked::Unfinished,
        Err(_) => Asked::Unreadable,
    }
}
