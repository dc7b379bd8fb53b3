//! Calls of a reader or writer that fails at one of them.

ghost use Rattle.std.specs.Prelude.{◌≡◌, ◌+◌, IfErr, OnOk};

use std::io;

/// Counts a call. A given number of calls succeed before one fails.
pub fn count_call(left: &mut u64) -> io::Result<()>
    ensures ok { OnOk result (left.old ≡ left.new + 1) }
    ensures fault { IfErr result (λ e. (left.old ≡ 0) × (left.new ≡ 0)) }
{
    if *left == 0 {
        return Err(io::Error::from(io::ErrorKind::BrokenPipe));
    }
    *left -= 1;
    Ok(())
}
