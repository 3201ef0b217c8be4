//! What is read and refused as a name or a number, and lists that grow and are made again.

use s38_base::{Bytes, Name, Seq, TryClone, read_u32_at, read_u64_at, try_clones};
use std::test::Fail;

#[test]
fn names_are_read(rt: HostRuntime) {
    let cases: [(&[u8], bool); 8] = [
        (b"Q", true),
        (b"QGPL2", true),
        (b"0", true),
        (b"ABCDEFGHIJKLMNOPQRSTUVWXYZ0123", true),
        (b"ABCDEFGHIJKLMNOPQRSTUVWXYZ01234", false),
        (b"", false),
        (b"Qgpl", false),
        (b"Q_1", false),
    ];
    for (text, is_name) in cases {
        assert_eq!(rt; Name::parse(text).is_ok(), is_name, "{text:?}");
    }
}

#[test]
fn numbers_are_read_high_byte_first(rt: HostRuntime) {
    let bytes = [0, 1, 2, 3, 4, 5, 6, 7, 8];
    let cases = [
        (0, Some(0x0001_0203), Some(0x0001_0203_0405_0607)),
        (1, Some(0x0102_0304), Some(0x0102_0304_0506_0708)),
        (2, Some(0x0203_0405), None),
        (5, Some(0x0506_0708), None),
        (6, None, None),
    ];
    for (at, word, long) in cases {
        assert_eq!(rt; read_u32_at(&bytes, at), word, "at {at}");
        assert_eq!(rt; read_u64_at(&bytes, at), long, "at {at}");
    }
}

#[test]
fn lists_are_made_again(rt: HostRuntime) -> Result<(), Fail> {
    let alloc = rt.alloc();
    let mut list = Seq::new(alloc);
    list.push(Bytes::from_slice(alloc, b"AB")?)?;
    list.push(Bytes::new(alloc))?;
    let again = try_clones(alloc, list.as_slice())?;
    assert_eq!(rt;
        format!(in alloc; "{again:?}")?.as_str(),
        "Seq { items: [Bytes { items: [65, 66] }, Bytes { items: [] }] }"
    );
    assert_eq!(rt;
        Bytes::from_slice(alloc, b"AB")?
            .try_clone(alloc)?
            .as_slice(),
        b"AB".as_slice()
    );
    Ok(())
}

#[test]
fn bytes_lie_in_place_and_on_the_heap(rt: HostRuntime) -> Result<(), Fail> {
    let alloc = rt.alloc();
    for len in [0, 1, 15, 16, 17, 300] {
        let mut bytes = Bytes::repeated(alloc, 7, len)?;
        bytes.push(9)?;
        bytes.resize(len + 2, 5)?;
        bytes.as_mut_slice().reverse();
        let mut same = vec![in alloc; 7; len + 2]?;
        same[0] = 5;
        same[1] = 9;
        assert_eq!(rt;
            bytes.try_clone(alloc)?.as_slice(),
            same.as_slice(),
            "{len} bytes"
        );
        assert_eq!(rt;
            Bytes::from_vec(same).as_slice(),
            bytes.as_slice(),
            "{len} bytes"
        );
    }
    Ok(())
}
