//! Words of the command line, and what they ask for.
use cli_words::{Subcommand, read_words};
use std::alloc::Global;
use std::process::Abort;

/// The words of a line.
fn words_of(rt: &(impl AllocGlobal + Abort), line: &str) -> Vec<String> {
    let mut words = Vec::new(rt.alloc());
    for word in line.split_whitespace() {
        let word = String::from_str(rt.alloc(), word).expect(rt, "word");
        words.push(word).expect(rt, "words");
    }
    words
}

/// Whether words ask for this over the configuration `c`: for `route` with these numbers, or for `run`.
fn asks(alloc: Global, words: &[String], wanted: Option<(u16, u64)>) -> bool {
    match read_words(alloc, words) {
        Ok(
            Subcommand::Route {
                config,
                link,
                now,
                ..
            },
        ) => config == "c" && wanted == Some((link, now)),
        Ok(Subcommand::Run { config, metrics }) => {
            config == "c" && metrics.is_none() && wanted.is_none()
        }
        _ => false,
    }
}

/// Lines, and the link and the moment of `route`; none of `run`.
const LINES: [(&str, Option<(u16, u64)>); 6] = [
    ("route --config c --link 2 --now 0", Some((2, 0))),
    (
        "route --now=1099511627775 --link=65535 --config=c",
        Some((65535, 1099511627775)),
    ),
    ("route --config c --link 0 --now 1", Some((0, 1))),
    (
        "route --config c --link 0 --now 1 --from 10.0.0.3:1",
        Some((0, 1)),
    ),
    ("run --config c", None),
    ("run --config=c", None),
];

/// What no command shows: the numbers of `route`, and that `run` is asked for. `tests/lines` has the other words.
#[test]
fn reads_words(rt: HostRuntime) {
    for (line, wanted) in LINES {
        let words = words_of(&rt, line);
        assert!(&rt; asks(rt.alloc(), words.as_slice(), wanted), "{line}");
    }
}
