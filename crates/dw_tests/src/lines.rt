//! A command line as a caller of `line` gets it.
use dw_cli::line::line;
use dw_cli::outcome::{Line, LineError};
use dw_cli::word::{Argument, BadWord};
use dw_leb::Order;
use dw_tool::command::Command;
use dw_unit::Versions;
use std::alloc::Global;

fn read<'a>(alloc: Global, words: &'a [&'a str]) -> Option<Line<'a>> {
    line(alloc, words).ok()
}

#[test]
fn reads_a_line(rt: HostRuntime) {
    let words = [
        "copy",
        "--abbrev=b",
        "--str-offsets=e",
        "--big",
        "--info=a",
        "--line-str=d",
        "--v4",
        "--str=c",
    ];
    assert!(rt;
        read(rt.alloc(), &words)
            == Some(Line {
                command: Command::Copy,
                order: Order::Big,
                versions: Versions::FourAndFive,
                info: "a",
                abbrev: "b",
                str: Some("c"),
                line_str: Some("d"),
                str_offsets: Some("e"),
            })
    );
}

// The word that isn't what it may be.
fn bad_word<'a>(alloc: Global, words: &'a [&'a str]) -> Option<BadWord<'a>> {
    match line(alloc, words) {
        Err(LineError::BadWord(bad)) => Some(bad),
        _ => None,
    }
}

#[test]
fn says_which_word_is_wrong(rt: HostRuntime) {
    let words = ["type", "--info", "a", "--abbrev", "b", "5a"];
    let bad = BadWord {
        argument: Argument::Offset,
        word: "5a",
    };
    assert!(rt; bad_word(rt.alloc(), &words) == Some(bad));
    let beside = ["type", "--info", "a", "--abbrev", "b", "5a", "6"];
    assert!(rt; bad_word(rt.alloc(), &beside).is_none());
}
