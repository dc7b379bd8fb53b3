//! What is written for a request.

ghost use Rattle.std.specs.Prelude.{◌≡◌, ◌++◌, OnOk};
ghost use Rattle.metrics_server.specs.Response.{metrics_response, not_allowed, not_found, response};

use crate::request::Asked;
use std::alloc::AllocError;
use text_values::push_decimal;

// The page, behind its head.
fn push_page(text: &mut Vec<u8>, page: &[u8]) -> Result<(), AllocError>
    ensures { OnOk result (text.new.items ≡ text.old.items ++ metrics_response page.now) }
{
    text.extend_from_slice(
        b"HTTP/1.1 200 OK\r\nContent-Type: text/plain; version=0.0.4\r\nContent-Length: ",
    )?;
    push_decimal(text, page.len())?;
    text.extend_from_slice(b"\r\nConnection: close\r\n\r\n")?;
    text.extend_from_slice(page)
}

/// Adds the response to a request whose head is whole: the page, or that there is none at that
/// path, or that it can only be got. Nothing is answered to what is no request. At `Err` no memory
/// was left, and a beginning of it may have been added.
pub fn push_response(text: &mut Vec<u8>, asked: Asked, page: &[u8]) -> Result<(), AllocError>
    ensures { OnOk result (text.new.items ≡ text.old.items ++ response asked page.now) }
{
    match asked {
        Asked::Metrics => push_page(text, page),
        Asked::OtherPath => text.extend_from_slice(
            b"HTTP/1.1 404 Not Found\r\nContent-Length: 0\r\nConnection: close\r\n\r\n",
        ),
        Asked::OtherMethod => text.extend_from_slice(
            b"HTTP/1.1 405 Method Not Allowed\r\nAllow: GET\r\nContent-Length: 0\r\nConnection: close\r\n\r\n",
        ),
        Asked::Unfinished | Asked::Unreadable => Ok(()),
    }
}
