//! Sources and sinks, read and written whole, with failures as planned.
ghost use Rattle.std.specs.Prelude.{◌≡◌, ◌≤◌, ◌++◌, [], length, IsOk, OnErr, IsErrOf};
ghost use Rattle.outside.specs.Causes.{Rose};

use crate::{
    MemSink, MemSource, ReadAllError, StdSink, StdSource, SureSink, SureSource, WriteFault,
    read_all, write_all,
};
use std::alloc::Global;
use std::io;
use std::test::Fail;

const TEXT: &[u8] = b"bytes that go in many pieces";

/// A reader whose first read gives a byte, and whose others fail.
#[derive(Drop)]
struct BrokenReader {
    is_broken: bool,
}

impl io::Read for BrokenReader {
    fn read(&mut self, buf: &mut [u8]) -> io::Result<usize> {
        if self.is_broken {
            return Err(io::Error::from(io::ErrorKind::BrokenPipe));
        }
        self.is_broken = true;
        Ok(buf.len().min(1))
    }
}

/// A reader that gives as many bytes as there is room for, and counts its calls.
#[derive(Drop)]
struct CountedReader {
    left: usize,
    calls: usize,
}

impl io::Read for CountedReader {
    fn read(&mut self, buf: &mut [u8]) -> io::Result<usize> {
        self.calls = self.calls.saturating_add(1);
        let count = buf.len().min(self.left);
        self.left -= count;
        Ok(count)
    }
}

/// A writer that takes each piece whole, and counts its calls.
#[derive(Drop)]
struct CountedWriter {
    taken: usize,
    calls: usize,
}

impl io::Write for CountedWriter {
    fn write(&mut self, buf: &[u8]) -> io::Result<usize> {
        self.calls = self.calls.saturating_add(1);
        self.taken = self.taken.saturating_add(buf.len());
        Ok(buf.len())
    }

    fn flush(&mut self) -> io::Result<()> {
        Ok(())
    }
}

/// A source that never fails gives no read fault.
fn read_sure(alloc: Global, source: &mut SureSource) -> Result<Vec<u8>, ReadAllError>
    ensures { ¬ IsErrOf result ReadAllError.ReadFault }
{
    read_all(alloc, source, usize::MAX)
}

/// A sink that never fails takes all that it has room for.
fn write_sure(sink: &mut SureSink, bytes: &[u8]) -> Result<(), WriteFault>
    requires { length bytes.now ≤ sink.old.room }
    ensures ok { IsOk result }
    ensures taken { sink.new.taken ≡ sink.old.taken ++ bytes.now }
{
    write_all(sink, bytes)
}

/// A write of everything, between the counts of writes that were refused memory.
#[derive(Drop)]
struct Counted {
    before: u64,
    result: Result<(), WriteFault>,
    after: u64,
}

/// With no call made to fail, a write fails only when memory is refused.
fn write_counted(sink: &mut MemSink, bytes: &[u8]) -> Counted
    requires { sink.old.failing ≡ [] }
    ensures { OnErr result.result (Rose result.before result.after) }
{
    let before = sink.starved();
    let result = write_all(sink, bytes);
    Counted {
        before,
        result,
        after: sink.starved(),
    }
}

#[test]
fn reads_up_to_the_limit(rt: HostRuntime) -> Result<(), Fail> {
    for (text, is_within) in [(b"abc".as_slice(), true), (b"abcd".as_slice(), false)] {
        let mut source = SureSource::new(text.to_vec(rt.alloc())?);
        match read_all(rt.alloc(), &mut source, 3) {
            Ok(bytes) => {
                assert!(rt; is_within);
                assert_eq!(rt; bytes.as_slice(), text);
            }
            Err(error) => {
                assert!(rt; !is_within);
                assert_eq!(rt; error, ReadAllError::TooLong);
            }
        }
    }
    Ok(())
}

#[test]
fn reads_in_pieces_until_a_fault(rt: HostRuntime) -> Result<(), Fail> {
    let alloc = rt.alloc();
    let mut whole = MemSource::new(TEXT.to_vec(alloc)?, 16, Vec::new(alloc));
    assert_eq!(rt; read_all(alloc, &mut whole, 100)?.as_slice(), TEXT);

    let mut broken = MemSource::new(TEXT.to_vec(alloc)?, 16, vec![in alloc; 1]?);
    assert_eq!(rt;
        read_all(alloc, &mut broken, 100).err(),
        Some(ReadAllError::ReadFault)
    );
    Ok(())
}

#[test]
fn writes_in_pieces_until_a_fault(rt: HostRuntime) -> Result<(), Fail> {
    let alloc = rt.alloc();
    let mut whole = MemSink::new(alloc, 8, Vec::new(alloc));
    let counted = write_counted(&mut whole, TEXT);
    assert_eq!(rt; counted.result, Ok(()));
    assert_eq!(rt; (counted.before, counted.after), (0, 0));
    assert_eq!(rt; whole.bytes(), TEXT);

    let mut broken = MemSink::new(alloc, 8, vec![in alloc; 2]?);
    assert_eq!(rt; write_all(&mut broken, TEXT), Err(WriteFault));
    assert_eq!(rt; broken.bytes(), b"bytes that go in".as_slice());
    assert_eq!(rt; broken.starved(), 0);
    Ok(())
}

#[test]
fn moves_bytes_that_never_fail(rt: HostRuntime) -> Result<(), Fail> {
    let alloc = rt.alloc();
    let mut source = SureSource::new(TEXT.to_vec(alloc)?);
    let bytes = read_sure(alloc, &mut source)?;
    assert_eq!(rt; bytes.as_slice(), TEXT);

    let mut sink = SureSink::with_room(alloc, 100)?;
    assert!(rt; bytes.len() <= 100);
    assert!(rt; write_sure(&mut sink, &bytes).is_ok());
    assert_eq!(rt; sink.bytes(), TEXT);
    Ok(())
}

#[test]
fn reads_what_a_reader_gives(rt: HostRuntime) -> Result<(), Fail> {
    let alloc = rt.alloc();
    let mut source = StdSource::new(TEXT);
    assert_eq!(rt; read_all(alloc, &mut source, 100)?.as_slice(), TEXT);

    let mut broken = StdSource::new(BrokenReader { is_broken: false });
    assert_eq!(rt;
        read_all(alloc, &mut broken, 100).err(),
        Some(ReadAllError::ReadFault)
    );
    Ok(())
}

#[test]
fn writes_what_a_writer_takes(rt: HostRuntime) -> Result<(), Fail> {
    let mut written = Vec::new(rt.alloc());
    write_all(&mut StdSink::new(&mut written), TEXT)?;
    assert_eq!(rt; written.as_slice(), TEXT);

    // A writer that takes nothing more is a fault.
    let mut space = [0; 5];
    let mut full = StdSink::new(space.as_mut_slice());
    assert_eq!(rt; write_all(&mut full, TEXT), Err(WriteFault));
    assert_eq!(rt; space.as_slice(), b"bytes".as_slice());

    // What a program prints to.
    write_all(&mut StdSink::new(io::writer(&rt)), b"")?;
    Ok(())
}

// No clause says how many bytes a call of an adapter moves.
#[test]
fn moves_many_bytes_a_call(rt: HostRuntime) -> Result<(), Fail> {
    let alloc = rt.alloc();
    let mut reader = CountedReader {
        left: 200_000,
        calls: 0,
    };
    let bytes = read_all(alloc, &mut StdSource::new(&mut reader), 300_000)?;
    assert_eq!(rt; bytes.len(), 200_000);
    // Three pieces of 65,536 bytes, the rest, and the end.
    assert_eq!(rt; reader.calls, 5);

    let mut writer = CountedWriter { taken: 0, calls: 0 };
    write_all(&mut StdSink::new(&mut writer), &bytes)?;
    assert_eq!(rt; (writer.taken, writer.calls), (200_000, 1));
    Ok(())
}
