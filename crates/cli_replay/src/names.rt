//! What the words of a replay name: links, workers and pipes.
ghost use Rattle.std.specs.Prelude.{◌≡◌, ◌<◌, IfSome, true};
ghost use Rattle.process_packet.specs.Network.{has_link, network};
ghost use Rattle.cli_replay.specs.Names.{high_link_of, link_after, link_of, link_queue_of, numbered_worker_of, processor_of, queue_of, worker_of};

use pipe_model::{Queue, Worker};
use process_packet::Config;
use router_rules::{has_two_bands, link_index};
use text_values::pieces::{read_number, strip_prefix};

/// A link of the configuration, by its interface.
#[tactic(auto, unfolding(crate::specs::Names::link_of))]
pub(crate) fn read_link(config: &Config, text: &str) -> Option<u16>
    ensures value { result ≡ link_of config.now text.now }
    ensures there { IfSome result (λ id. has_link (network config.now) id ≡ true) }
{
    let id = read_number(text, u16::MAX.into())? as u16;
    if config.has_link(id) { Some(id) } else { None }
}

/// The link whose interface comes after a letter.
#[tactic(auto, unfolding(crate::specs::Names::link_after))]
fn read_link_after(config: &Config, letter: char, text: &str) -> Option<u16>
    requires { letter < 128 }
    ensures { result ≡ link_after config.now letter text.now }
{
    read_link(config, strip_prefix(text, letter)?)
}

/// The link with two bands whose interface comes after an `h`.
#[tactic(auto, unfolding(crate::specs::Names::high_link_of))]
pub(crate) fn read_high_link(config: &Config, text: &str) -> Option<u16>
    ensures { result ≡ high_link_of config.now text.now }
{
    let id = read_link_after(config, 'h', text)?;
    if has_two_bands(config, link_index(config, id)) {
        Some(id)
    } else {
        None
    }
}

/// The processor whose number comes after a `p`.
#[tactic(auto, unfolding(crate::specs::Names::processor_of))]
pub(crate) fn read_processor(config: &Config, text: &str) -> Option<u8>
    ensures { result ≡ processor_of config.now text.now }
{
    let index = read_number(strip_prefix(text, 'p')?, u8::MAX.into())? as u8;
    if index < config.processors {
        Some(index)
    } else {
        None
    }
}

/// A worker that has a link or a number.
#[tactic(auto, unfolding(crate::specs::Names::numbered_worker_of))]
fn read_numbered_worker(config: &Config, text: &str) -> Option<Worker>
    ensures { result ≡ numbered_worker_of config.now text.now }
{
    if let Some(link) = read_link_after(config, 'r', text) {
        return Some(Worker::Receiver(link));
    }
    if let Some(index) = read_processor(config, text) {
        return Some(Worker::Processor(index));
    }
    match read_link_after(config, 'f', text) {
        Some(link) => Some(Worker::Forwarder(link)),
        None => None,
    }
}

/// A worker of the configuration: `r<link>`, `p<number>`, `s`, `f<link>` or `c`.
#[tactic(auto, unfolding(crate::specs::Names::worker_of))]
pub(crate) fn read_worker(config: &Config, text: &str) -> Option<Worker>
    ensures { result ≡ worker_of config.now text.now }
{
    match text {
        "s" => Some(Worker::Slow),
        "c" => Some(Worker::Controller),
        _ => read_numbered_worker(config, text),
    }
}

/// A pipe, by its consumer or as the high band of a link.
#[tactic(auto, unfolding(crate::specs::Names::queue_of))]
pub(crate) fn read_queue(config: &Config, text: &str) -> Option<Queue>
    ensures { result ≡ queue_of config.now text.now }
{
    if let Some(link) = read_high_link(config, text) {
        return Some(Queue::High(link));
    }
    match read_worker(config, text) {
        Some(worker) => Some(Queue::Of(worker)),
        None => None,
    }
}

/// A pipe of a link, by the link alone or as its high band.
#[tactic(auto, unfolding(crate::specs::Names::link_queue_of))]
pub(crate) fn read_link_queue(config: &Config, text: &str) -> Option<Queue>
    ensures { result ≡ link_queue_of config.now text.now }
{
    if let Some(link) = read_high_link(config, text) {
        return Some(Queue::High(link));
    }
    match read_link(config, text) {
        Some(link) => Some(Queue::Of(Worker::Forwarder(link))),
        None => None,
    }
}
