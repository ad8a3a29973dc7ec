ghost use Rattle.std.specs.Prelude.{◌<◌, ◌≤◌, IfSome, OnOk, IsErrOf, length};
ghost use Rattle.morty_io.specs.Faults.{Rose};
ghost use Rattle.morty_io.specs.Bytes.{Takes};

use morty_base::List;
use morty_io::{
    MemSink, MemSource, ReadEnd, SINK_ROOM, Sink, Source, StdSink, StdSource, WriteFault,
    read_whole, write_whole,
};
use std::alloc::Global;
use std::test::Fail;

const TEXT: &[u8] = b"morty 1";

#[test]
fn reads_memory(rt: HostRuntime) -> Result<(), Fail> {
    let alloc = rt.alloc();
    for (limit, fails, want) in [
        (7usize, 9u64, Ok(TEXT)),
        (8, 9, Ok(TEXT)),
        (6, 9, Err(ReadEnd::TooLong)),
        (0, 9, Err(ReadEnd::TooLong)),
        (7, 1, Err(ReadEnd::ReadFault)),
        (7, 2, Err(ReadEnd::ReadFault)),
    ] {
        let bytes = List::from_slice(alloc, TEXT)?;
        let mut src = MemSource::new(bytes, List::from_slice(alloc, &[fails])?);
        match read_whole(alloc, &mut src, limit) {
            Ok(read) => {
                assert_eq!(rt; Ok(read.as_slice()), want);
                assert!(rt; src.left().is_empty());
                assert_eq!(rt; src.calls(), 2);
            }
            Err(end) => assert_eq!(rt; Err(end), want),
        }
    }
    Ok(())
}

#[test]
fn writes_memory(rt: HostRuntime) -> Result<(), Fail> {
    let alloc = rt.alloc();
    for (fails, want, taken) in [
        (9u64, Ok(()), "morty 1"),
        (1, Err(WriteFault), ""),
        (3, Err(WriteFault), "morty "),
    ] {
        let mut out = MemSink::new(alloc, 3, List::from_slice(alloc, &[fails])?)?;
        assert_eq!(rt; write_whole(&mut out, TEXT), want);
        assert_eq!(rt; out.taken(), taken.as_bytes());
        assert_eq!(rt; out.calls(), 3.min(fails));
    }
    Ok(())
}

#[test]
fn fills_memory(rt: HostRuntime) -> Result<(), Fail> {
    let alloc = rt.alloc();
    let mut out = MemSink::new(alloc, usize::MAX, List::new(alloc))?;
    let all = vec![in alloc; 7u8; SINK_ROOM]?;
    assert_eq!(rt; write_whole(&mut out, all.as_slice()), Ok(()));
    assert_eq!(rt; write_whole(&mut out, b""), Ok(()));
    assert_eq!(rt; write_whole(&mut out, b"x"), Err(WriteFault));
    assert!(rt; out.taken() == all.as_slice());
    Ok(())
}

#[test]
fn reads_and_writes_the_system(rt: HostRuntime) -> Result<(), Fail> {
    let alloc = rt.alloc();
    let long = vec![in alloc; 5u8; 10_000]?;
    for bytes in [TEXT, long.as_slice()] {
        let mut src = StdSource::new(bytes);
        let read = read_whole(alloc, &mut src, 10_000).ok().ok_or("no bytes")?;
        assert!(rt; read.as_slice() == bytes);

        let mut kept = Vec::new(alloc);
        assert_eq!(rt; write_whole(&mut StdSink::new(&mut kept), bytes), Ok(()));
        assert!(rt; kept.as_slice() == bytes);
    }
    // A writer that has no room left takes nothing, which counts as a fault.
    let mut small = [0u8; 3];
    assert_eq!(rt;
        write_whole(&mut StdSink::new(small.as_mut_slice()), TEXT),
        Err(WriteFault)
    );
    assert_eq!(rt; small.as_slice(), b"mor".as_slice());
    Ok(())
}

#[derive(Clone, Copy, Debug, PartialEq, Eq)]
enum CopyEnd {
    Read(ReadEnd),
    Write,
}

// What a caller that is generic over both can say.
fn copy_whole<S: Source, K: Sink>(
    alloc: Global,
    src: &mut S,
    out: &mut K,
    limit: usize,
) -> Result<(), CopyEnd>
    requires { limit < usize.MAX }
    ensures copied { OnOk result (IfSome (S.left src.old) (λ bytes. Takes (K.taken out.old) (K.taken out.new) bytes)) }
    ensures long { IsErrOf result (CopyEnd.Read ReadEnd.TooLong) → IfSome (S.left src.old) (λ bytes. limit < length bytes) }
    ensures short { OnOk result (IfSome (S.left src.old) (λ bytes. length bytes ≤ limit)) }
    ensures wrote { IsErrOf result CopyEnd.Write → Rose (K.faults out.old) (K.faults out.new) }
    ensures read { IsErrOf result (CopyEnd.Read ReadEnd.ReadFault) → Rose (S.faults src.old) (S.faults src.new) }
{
    match read_whole(alloc, src, limit) {
        Ok(bytes) => match write_whole(out, bytes.as_slice()) {
            Ok(()) => Ok(()),
            Err(_) => Err(CopyEnd::Write),
        },
        Err(end) => Err(CopyEnd::Read(end)),
    }
}

#[test]
fn copies_memory(rt: HostRuntime) -> Result<(), Fail> {
    let alloc = rt.alloc();
    let mut src = MemSource::new(List::from_slice(alloc, TEXT)?, List::new(alloc));
    let mut out = MemSink::new(alloc, 3, List::from_slice(alloc, &[1u64])?)?;
    assert_eq!(rt;
        copy_whole(alloc, &mut src, &mut out, 6),
        Err(CopyEnd::Read(ReadEnd::TooLong))
    );

    let mut src = MemSource::new(List::from_slice(alloc, TEXT)?, List::new(alloc));
    assert_eq!(rt;
        copy_whole(alloc, &mut src, &mut out, 7),
        Err(CopyEnd::Write)
    );

    let mut src = MemSource::new(List::from_slice(alloc, TEXT)?, List::new(alloc));
    assert_eq!(rt; copy_whole(alloc, &mut src, &mut out, 7), Ok(()));
    assert_eq!(rt; out.taken(), TEXT);
    Ok(())
}
