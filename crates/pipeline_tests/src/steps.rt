//! Single steps of a pipe's ends, which tests are made of.

ghost use Rattle.std.specs.Prelude.{◌≡◌, true, MatchBool};
ghost use Rattle.ruled_pipe.specs.Producer.{entry, offered, refused};
ghost use Rattle.ruled_pipe.specs.Consumer.{took};

use ruled_pipe::{Consumer, Entry, Load, Mark, Producer};
use std::sync::Wait;

/// Whether the offer was accepted. A refused one comes back.
pub fn accepts<R: Wait>(rt: &R, producer: &mut Producer<u32>, item: u32) -> bool
    ensures { MatchBool result (producer.new ≡ offered producer.old (entry producer.old.number (Load.Payload item))) (producer.new ≡ refused producer.old (entry producer.old.number (Load.Payload item))) }
{
    producer.offer(rt, item).is_ok()
}

/// Whether the closing mark was accepted.
pub fn closes<R: Wait>(rt: &R, producer: &mut Producer<u32>) -> bool
    ensures { result ≡ true → producer.new ≡ offered producer.old (entry producer.old.number (Load.Marked Mark.Close)) }
{
    producer.mark(rt, Mark::Close).is_ok()
}

/// Whether the next entry is this item of this producer.
pub fn gives<R: Wait>(rt: &R, consumer: &mut Consumer<u32>, producer: usize, item: u32) -> bool
    ensures { result ≡ true → consumer.new ≡ took consumer.old (entry producer (Load.Payload item)) }
{
    match consumer.take(rt) {
        Some(
            Entry {
                from,
                load: Load::Payload(x),
            },
        ) => from == producer && x == item,
        _ => false,
    }
}
