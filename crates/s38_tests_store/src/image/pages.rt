//! A stream of 513 bytes in two parts.

ghost use Rattle.std.specs.Prelude.{◌≤◌};

use s38_base::Change;
use s38_image::stream_of;
use s38_image_writer::PageWriter;
use std::alloc::Global;
use std::test::Fail;

fn stream(alloc: Global) -> Result<Vec<u8>, Fail> {
    let mut bytes = Vec::new(alloc);
    bytes.resize(512, 7)?;
    bytes.push(9)?;
    Ok(bytes)
}

/// Its first bytes, in pages.
fn parts(alloc: Global, len: u32) -> Result<Vec<Change>, Fail>
    requires { len ≤ 513 }
{
    let mut writer = PageWriter::new(Vec::with_capacity(alloc, 2)?, 5, 128, len);
    let bytes = stream(alloc)?;
    if bytes.len() < len as usize {
        return Err(Fail::new("a short stream"));
    }
    let (front, _) = bytes.split_at(len as usize);
    writer.put(front);
    Ok(writer.finish())
}

#[test]
fn a_stream_is_cut_into_pages(rt: HostRuntime) -> Result<(), Fail> {
    let parts = parts(rt.alloc(), 513)?;
    let keys = [(5, 128, 7), (5, 129, 9)];
    for (part, (object, number, first)) in parts.iter().zip(keys) {
        assert!(rt; part.key.object == object && part.key.part == number);
        assert!(rt;
            part.page
                .is_some_and(|page| page.bytes[0] == first && page.tags == 0)
        );
    }
    assert!(rt;
        parts.len() == 2
            && parts[1]
                .page
                .is_some_and(|page| page.bytes[1..] == [0; 511])
    );
    Ok(())
}

#[test]
fn a_stream_is_read_of_its_pages_alone(rt: HostRuntime) -> Result<(), Fail> {
    let one = parts(rt.alloc(), 512)?;
    let parts = parts(rt.alloc(), 513)?;
    let read = stream_of(rt.alloc(), 5, 128, 513, &parts)?;
    assert!(rt; read.as_slice() == stream(rt.alloc())?.as_slice());
    assert!(rt; stream_of(rt.alloc(), 6, 128, 513, &parts).is_err());
    assert!(rt; stream_of(rt.alloc(), 5, 1, 513, &parts).is_err());
    assert!(rt; stream_of(rt.alloc(), 5, 128, 512, &parts).is_err());
    assert!(rt; stream_of(rt.alloc(), 5, 128, 513, &one).is_err());
    Ok(())
}
