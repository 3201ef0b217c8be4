//! Texts at the limits of decks, and the texts of decks that are printed.

use s38_base::Name;
use s38_template::{DeckFault, print_deck, print_template, read_deck, template_places};
use std::alloc::{AllocError, Global};
use std::test::Fail;

/// The first bad line of a text and its code; None where the text spells a deck.
fn fault(alloc: Global, text: &[u8]) -> Option<(u32, u8)> {
    match read_deck(alloc, text) {
        Ok(_) => None,
        Err(DeckFault::Bad { line, code }) => Some((line, code)),
        Err(DeckFault::NoMemory) => Some((0, 0)),
    }
}

/// So many times a line between a head and a tail.
fn repeated(
    alloc: Global,
    head: &[u8],
    line: &[u8],
    count: u32,
    tail: &[u8],
) -> Result<Vec<u8>, AllocError> {
    let mut text = Vec::from_slice(alloc, head)?;
    for _ in 0..count {
        text.extend_from_slice(line)?;
    }
    text.extend_from_slice(tail)?;
    Ok(text)
}

/// The lines before those that are repeated, how many, and the first bad line with its code.
const REPEATED: &[(&str, &str, u32, Option<(u32, u8)>)] = &[
    ("", "*", 255, None),
    ("", "*", 256, Some((1, 1))),
    ("", "*\n", 2_097_151, None),
    ("", "*\n", 2_097_152, Some((2_097_153, 6))),
    ("PROGRAM P\n", "DCL A PTR\n", 1024, None),
    ("PROGRAM P\n", "DCL A PTR\n", 1025, Some((1026, 7))),
    ("PROGRAM P\n", "RTX\n", 16_384, None),
    ("PROGRAM P\n", "RTX\n", 16_385, Some((16_386, 7))),
];

#[test]
fn limits_are_kept(rt: HostRuntime) -> Result<(), Fail> {
    let alloc = rt.alloc();
    for (head, line, count, want) in REPEATED {
        let tail: &[u8] = if head.is_empty() { b"\n\n" } else { b"END\n" };
        let text = repeated(alloc, head.as_bytes(), line.as_bytes(), *count, tail)?;
        assert_eq!(rt; fault(alloc, text.as_slice()), *want, "{line} {count}");
    }
    Ok(())
}

/// A text, and the text of its deck.
const READ: &str =
    "PROGRAM P ADOPT\n*\nRTX\nEND\nPROGRAM Q\nEND\nSTAGE\nJOB A USER 9 RUN P BUDGET 1000000\nSTAGE\n\nJOB B USER U RUN Q BUDGET 7 CONTEXTS C D\n";

const PRINTED: &str =
    "PROGRAM P ADOPT\nRTX\nEND\nPROGRAM Q\nEND\nSTAGE\nJOB A USER 9 RUN P\nSTAGE\nJOB B USER U RUN Q BUDGET 7 CONTEXTS C D\n";

#[test]
fn a_deck_is_read_and_printed(rt: HostRuntime) -> Result<(), Fail> {
    let alloc = rt.alloc();
    let deck = read_deck(alloc, READ.as_bytes())?;
    let job = deck.jobs.as_slice().get(1).ok_or("job")?;
    assert_eq!(rt; job.name.as_bytes(), b"B".as_slice());
    assert_eq!(rt; (job.stage, job.budget, job.contexts.len()), (2, 7, 2));
    let places = template_places(alloc, &deck)?;
    assert_eq!(rt; places.get(&job.template).copied(), Some(1));
    assert_eq!(rt; places.get(&Name::parse(b"R")?).copied(), None);
    assert_eq!(rt; print_deck(alloc, &deck)?.as_slice(), PRINTED.as_bytes());
    let template = deck.templates.as_slice().get(0).ok_or("template")?;
    assert_eq!(rt;
        print_template(alloc, template)?.as_slice(),
        b"PROGRAM P ADOPT\nRTX\nEND\n".as_slice()
    );
    Ok(())
}
