//! The line of a replay that is a step.
ghost use Rattle.std.specs.Prelude.{◌≡◌, Some, None, true, false};
ghost use Rattle.replay_places.specs.Worker.{queue_in, worker_in};
ghost use Rattle.replay_laws.specs.Next.{feeds};
ghost use Rattle.cli_replay.specs.StepLine.{end_of, outcome_of, named_step_of, send_of, step_of, step_of_line, step_with, verb_of};

use crate::names::{
    read_high_link, read_link, read_link_queue, read_processor, read_queue, read_worker,
};
use cli_io::text_of;
use pipe_model::{Queue, Step, Worker};
use process_packet::Config;
use replay_places::{QueueIndex, WorkerIndex};
use text_values::pieces::split_once;

/// The word by which a step begins; `answer` has nothing after it and is none of these.
#[derive(Clone, Copy)]
pub(crate) enum Verb {
    Receive,
    NoBuffer,
    Offer,
    Refuse,
    Take,
    Look,
    Route,
    Lack,
    Close,
    End,
    Send,
    Sweep,
}

#[tactic(auto, unfolding(crate::specs::StepLine::verb_of))]
fn read_verb(word: &str) -> Option<Verb>
    ensures { result ≡ verb_of word.now }
{
    match word {
        "receive" => Some(Verb::Receive),
        "nobuffer" => Some(Verb::NoBuffer),
        "offer" => Some(Verb::Offer),
        "refuse" => Some(Verb::Refuse),
        "take" => Some(Verb::Take),
        "look" => Some(Verb::Look),
        "route" => Some(Verb::Route),
        "lack" => Some(Verb::Lack),
        "close" => Some(Verb::Close),
        "end" => Some(Verb::End),
        "send" => Some(Verb::Send),
        "sweep" => Some(Verb::Sweep),
        _ => None,
    }
}

/// Whether a worker pushes to a pipe.
fn feeds(config: &Config, worker: Worker, queue: Queue) -> bool
    ensures { result ≡ feeds (worker_in config.now worker) (queue_in config.now queue) }
{
    WorkerIndex::named(config, worker).feeds(QueueIndex::named(config, queue))
}

/// The step by which a worker pushes its end mark to a pipe that it feeds.
#[tactic(auto, unfolding(crate::specs::StepLine::end_of))]
fn read_end(config: &Config, text: &str) -> Option<Step>
    ensures { result ≡ end_of config.now text.now }
{
    let (worker, queue) = split_once(text, ' ')?;
    let worker = read_worker(config, worker)?;
    let queue = read_queue(config, queue)?;
    if feeds(config, worker, queue) {
        Some(Step::EndMark(worker, queue))
    } else {
        None
    }
}

/// Whether a sink takes what it is handed.
fn read_outcome(word: &str) -> Option<bool>
    ensures { result ≡ outcome_of word.now }
{
    match word {
        "ok" => Some(true),
        "failed" => Some(false),
        _ => None,
    }
}

/// The step by which a forwarder hands what it holds to its sink.
#[tactic(auto, unfolding(crate::specs::StepLine::send_of))]
fn read_send(config: &Config, text: &str) -> Option<Step>
    ensures { result ≡ send_of config.now text.now }
{
    let (link, outcome) = split_once(text, ' ')?;
    let link = read_link(config, link)?;
    let ok = read_outcome(outcome)?;
    Some(Step::Send(link, ok))
}

/// The step of a verb and what follows it.
fn read_with(config: &Config, verb: Verb, text: &str) -> Option<Step>
    ensures { result ≡ step_with config.now verb text.now }
{
    match verb {
        Verb::Receive => read_link(config, text).map(Step::Receive),
        Verb::NoBuffer => read_link(config, text).map(Step::NoBuffer),
        Verb::Offer => read_worker(config, text).map(Step::Offer),
        Verb::Refuse => read_worker(config, text).map(Step::Refuse),
        Verb::Take => read_queue(config, text).map(Step::Take),
        Verb::Look => read_high_link(config, text).map(Step::Look),
        Verb::Route => read_processor(config, text).map(Step::Route),
        Verb::Lack => read_worker(config, text).map(Step::Lack),
        Verb::Close => read_link_queue(config, text).map(Step::CloseMark),
        Verb::End => read_end(config, text),
        Verb::Send => read_send(config, text),
        Verb::Sweep => read_link_queue(config, text).map(Step::Sweep),
    }
}

#[tactic(auto, unfolding(crate::specs::StepLine::named_step_of))]
fn read_named_step(config: &Config, text: &str) -> Option<Step>
    ensures { result ≡ named_step_of config.now text.now }
{
    let (verb, rest) = split_once(text, ' ')?;
    let verb = read_verb(verb)?;
    read_with(config, verb, rest)
}

#[tactic(auto, unfolding(crate::specs::StepLine::step_of))]
fn read_step_of(config: &Config, text: &str) -> Option<Step>
    ensures { result ≡ step_of config.now text.now }
{
    match text {
        "answer" => Some(Step::Answer),
        _ => read_named_step(config, text),
    }
}

/// The step that a line of a replay is, if it is one.
///
/// Links, processors and pipes are those of the configuration; numbers are plain decimals with no
/// leading zero; words are separated by one blank.
#[tactic(auto, unfolding(crate::specs::StepLine::step_of_line))]
pub fn read_step(config: &Config, line: &[u8]) -> Option<Step>
    ensures { result ≡ step_of_line config.now line.now }
{
    read_step_of(config, text_of(line)?)
}
