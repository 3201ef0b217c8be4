//! An object of each kind in its parts, as the rules of images make them.

use s38_base::{Change, Key, Page};
use std::alloc::Global;
use std::test::Fail;

/// The longest body.
pub const LIMIT: u32 = 1_048_576;

/// An object ITEM of subtype 0 in context 3, of user 2, with no rights of everybody, and one row. Its kind and the
/// length of its body are still 0.
const FRONT: &[u8] =
    b"S38H\0\0\0\x04ITEM\0\0\0\0\0\0\0\0\0\0\0\0\0\0\0\0\0\0\0\0\0\0\0\0\0\0\0\0\0\0\0\0\0\x03\0\0\0\0\0\0\0\x02\0\0\0\0\0\x01\0\0\0\0";

/// User 2 has the right of bit 80.
const ROW: &[u8] = b"\0\0\0\0\0\0\0\x02\x80";

/// A user: both special authorities, and a limit of 100 pages.
const USER: &[u8] = b"\xc0\0\0\0\x64";
/// A system pointer with the right of bit 80 to object 9, and a cell of sixteen letters.
const SPACE: &[u8] = b"\x01\x80\0\0\0\0\0\0\0\0\0\0\0\0\0\x09ABCDEFGHIJKLMNOP";
/// Last in first out, no keys, messages of 8 bytes at most, two of them: of 3 bytes and of 2.
const QUEUE: &[u8] = b"\x01\0\0\x08\0\0\0\x02\0\x03\xc1\xc2\xc3\0\x02\x01\x02";
/// Entries of 8 bytes at most, two of them: A, AB.
const INDEX: &[u8] = b"\x08\0\0\0\x02\x01A\x02AB";
/// No port; three packed digits, and two bytes; two ordinals: +012 and AB, and a deleted one.
const DATA_SPACE: &[u8] =
    b"\0\0\0\0\0\0\0\0\0\0\0\0\0\0\0\0\0\x02\x01\x03\0\x04\0\x02\0\0\0\x02\x01\x01\x2cAB\0\0\0\0\0";
/// Data space 7, commit block 9, position 258.
const CURSOR: &[u8] = b"\0\0\0\0\0\0\0\x07\0\0\0\0\0\0\0\x09\0\0\x01\x02";
/// Object 513.
const NUMBER: &[u8] = b"\0\0\0\0\0\0\x02\x01";
/// Two entries of unit 1 and process 3: an insert of two bytes under ordinal 1 of object 9, and a commit.
const JOURNAL: &[u8] =
    b"\0\0\0\x2b\0\0\0\0\0\0\0\x01\0\0\0\0\0\0\0\x01\0\0\0\x03\x01\0\0\0\0\0\0\0\x09\0\0\0\x01\0\0\0\x02\x01\x2c\0\0\0\x29\0\0\0\0\0\0\0\x02\0\0\0\0\0\0\0\x01\0\0\0\x03\x04\0\0\0\0\0\0\0\0\0\0\0\0\0\0\0\0";
/// A program of no declaration and no instruction.
const PROGRAM: &[u8] = b"PROGRAM ITEM\nEND\n";

/// A kind, a body of it, and the tags of its page.
pub struct Sample {
    pub kind: u8,
    pub body: &'static [u8],
    pub tags: u32,
}

pub const SAMPLES: [Sample; 11] = [
    Sample {
        kind: 1,
        body: b"",
        tags: 0,
    },
    Sample {
        kind: 2,
        body: PROGRAM,
        tags: 0,
    },
    Sample {
        kind: 3,
        body: USER,
        tags: 0,
    },
    Sample {
        kind: 4,
        body: SPACE,
        tags: 1,
    },
    Sample {
        kind: 5,
        body: QUEUE,
        tags: 0,
    },
    Sample {
        kind: 6,
        body: INDEX,
        tags: 0,
    },
    Sample {
        kind: 7,
        body: DATA_SPACE,
        tags: 0,
    },
    Sample {
        kind: 8,
        body: CURSOR,
        tags: 0,
    },
    Sample {
        kind: 9,
        body: NUMBER,
        tags: 0,
    },
    Sample {
        kind: 10,
        body: JOURNAL,
        tags: 0,
    },
    Sample {
        kind: 11,
        body: NUMBER,
        tags: 0,
    },
];

/// The bytes, and zeros after them.
fn page_of(bytes: &[u8]) -> [u8; 512] {
    let mut page = [0; 512];
    for (to, from) in page.iter_mut().zip(bytes) {
        *to = *from;
    }
    page
}

fn part(number: u32, bytes: [u8; 512], tags: u32) -> Change {
    Change {
        key: Key {
            object: 7,
            part: number,
        },
        page: Some(Page { bytes, tags }),
    }
}

fn header(kind: u8, body: &[u8]) -> Change {
    let mut bytes = page_of(FRONT);
    bytes[4] = kind;
    bytes[63] = (body.len() % 256) as u8;
    part(0, bytes, 0)
}

/// The parts of object 7.
pub fn parts_of(alloc: Global, sample: &Sample) -> Result<Vec<Change>, Fail> {
    let mut parts = Vec::new(alloc);
    parts.push(header(sample.kind, sample.body))?;
    parts.push(part(1, page_of(ROW), 0))?;
    if !sample.body.is_empty() {
        parts.push(part(128, page_of(sample.body), sample.tags))?;
    }
    Ok(parts)
}
