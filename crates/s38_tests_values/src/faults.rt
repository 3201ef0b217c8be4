//! The texts of faults, which no run writes.

use s38_base::{BadName, Failed, NoMemory};
use s38_commits::UnitFault;
use s38_indexes::IndexFault;
use s38_journals::JournalFault;
use s38_queues::QueueFault;
use std::alloc::Global;
use std::fmt::Display;
use std::test::Fail;

const OF_INDEXES: &[(IndexFault, &str)] = &[
    (
        IndexFault::BadLength,
        "the entry is longer than the index's longest",
    ),
    (IndexFault::Present, "the index has this entry already"),
    (IndexFault::Full, "the index's image would be too large"),
    (IndexFault::Absent, "the index has no such entry"),
    (IndexFault::NoMemory, "no memory"),
];

const OF_JOURNALS: &[(JournalFault, &str)] = &[
    (JournalFault::Full, "the journal space would be too large"),
    (JournalFault::NoMemory, "no memory"),
];

const OF_QUEUES: &[(QueueFault, &str)] = &[
    (
        QueueFault::BadKey,
        "the key has not the length of the queue's keys",
    ),
    (
        QueueFault::TooLong,
        "the message is longer than the queue's longest",
    ),
    (QueueFault::Full, "the queue's image would be too large"),
    (QueueFault::NoMemory, "no memory"),
];

const OF_UNITS: &[(UnitFault, &str)] = &[
    (
        UnitFault::Full,
        "the unit's changes would take too many bytes of a journal",
    ),
    (UnitFault::NoMemory, "no memory"),
];

/// Whether each fault has its text.
fn have<T: Display>(alloc: Global, faults: &[(T, &str)]) -> Result<bool, Fail> {
    for (fault, text) in faults {
        if format!(in alloc; "{fault}")?.as_str() != *text {
            return Ok(false);
        }
    }
    Ok(true)
}

#[test]
fn faults_have_their_texts(rt: HostRuntime) -> Result<(), Fail> {
    assert!(rt; have(rt.alloc(), OF_INDEXES)?);
    assert!(rt; have(rt.alloc(), OF_JOURNALS)?);
    assert!(rt; have(rt.alloc(), OF_QUEUES)?);
    assert!(rt; have(rt.alloc(), OF_UNITS)?);
    assert!(rt; have(rt.alloc(), &[(BadName, "not a name")])?);
    assert!(rt; have(rt.alloc(), &[(NoMemory, "no memory")])?);
    assert!(rt; have(rt.alloc(), &[(Failed, "the outside failed")])?);
    Ok(())
}
