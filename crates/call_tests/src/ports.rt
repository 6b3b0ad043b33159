//! Sources and sinks over any reader and writer, in memory, and without faults.

use arrayvec::ArrayVec;
use retro_ports::{
    Failed, MemSink, MemSource, QuietSink, QuietSource, ReadAllFault, Sink, Source, StdSink,
    StdSource, read_all, write_all,
};
use std::alloc::Global;
use std::io;
use std::io::{ErrorKind, Read, Write};

/// A reader that gives at most so many bytes a call, and may fail once, at its second call.
#[derive(Drop)]
struct Reader {
    left: &'static [u8],
    most: usize,
    calls: u32,
    fails: bool,
}

impl Read for Reader {
    fn read(&mut self, buf: &mut [u8]) -> io::Result<usize> {
        self.calls = self.calls.saturating_add(1);
        if self.fails && self.calls == 2 {
            return Err(ErrorKind::Interrupted.into());
        }
        let n = self.most.min(buf.len()).min(self.left.len());
        buf[..n].copy_from_slice(&self.left[..n]);
        self.left = &self.left[n..];
        Ok(n)
    }
}

/// The call that fails, once: the first of its kind.
#[derive(Clone, Copy, PartialEq, Eq)]
enum Failing {
    Nothing,
    Write,
    Flush,
}

/// A writer that takes at most so many bytes a call, and passes them on when it is flushed.
#[derive(Drop)]
struct Writer {
    most: usize,
    failing: Failing,
    held: Vec<u8>,
    passed_on: Vec<u8>,
}

impl Write for Writer {
    fn write(&mut self, buf: &[u8]) -> io::Result<usize> {
        if self.failing == Failing::Write {
            self.failing = Failing::Nothing;
            return Err(ErrorKind::Interrupted.into());
        }
        let n = self.most.min(buf.len());
        self.held.extend_from_slice(&buf[..n])?;
        Ok(n)
    }

    fn flush(&mut self) -> io::Result<()> {
        if self.failing == Failing::Flush {
            self.failing = Failing::Nothing;
            return Err(ErrorKind::Interrupted.into());
        }
        self.passed_on.extend_from_slice(&self.held)?;
        self.held.clear();
        Ok(())
    }
}

/// Reads two bytes at most, and adds them to all that was read.
fn read_more(source: &mut StdSource<Reader>, all: &mut ArrayVec<u8, 8>) -> Result<usize, Failed> {
    let mut buf = [0; 2];
    let n = source.read(&mut buf)?;
    let _ = all.try_extend_from_slice(&buf[..n]);
    Ok(n)
}

/// The answers of four reads from `abc`, and all that they read.
fn four_reads(most: usize, fails: bool) -> ([Result<usize, Failed>; 4], ArrayVec<u8, 8>) {
    let mut source = StdSource::new(Reader {
        left: b"abc",
        most,
        calls: 0,
        fails,
    });
    let mut all = ArrayVec::new();
    let first = read_more(&mut source, &mut all);
    let second = read_more(&mut source, &mut all);
    let third = read_more(&mut source, &mut all);
    let fourth = read_more(&mut source, &mut all);
    ([first, second, third, fourth], all)
}

#[test]
fn reads_from_any_reader_to_its_end(rt: HostRuntime) {
    for (most, fails, want) in [
        (2, false, [Ok(2), Ok(1), Ok(0), Ok(0)]),
        (1, false, [Ok(1), Ok(1), Ok(1), Ok(0)]),
        (2, true, [Ok(2), Err(Failed), Ok(1), Ok(0)]),
        (1, true, [Ok(1), Err(Failed), Ok(1), Ok(1)]),
    ] {
        let (answers, all) = four_reads(most, fails);
        assert_eq!(rt; (answers, all.as_slice()), (want, b"abc".as_slice()));
    }
}

/// The answers of two writes of `ab`, and the bytes that were passed on.
fn two_writes(
    alloc: Global,
    most: usize,
    failing: Failing,
) -> ([Result<usize, Failed>; 2], Vec<u8>) {
    let mut writer = Writer {
        most,
        failing,
        held: Vec::new(alloc),
        passed_on: Vec::new(alloc),
    };
    let mut sink = StdSink::new(&mut writer);
    let first = sink.write(b"ab");
    let second = sink.write(b"ab");
    drop(sink);
    ([first, second], writer.passed_on)
}

#[test]
fn writes_through_any_writer(rt: HostRuntime) {
    let failed = Err(Failed);
    for (most, failing, want, passed_on) in [
        (2, Failing::Nothing, [Ok(2), Ok(2)], b"abab".as_slice()),
        (1, Failing::Nothing, [Ok(1), Ok(1)], b"aa".as_slice()),
        (0, Failing::Nothing, [failed, failed], b"".as_slice()),
        (2, Failing::Write, [failed, Ok(2)], b"ab".as_slice()),
        (2, Failing::Flush, [failed, Ok(2)], b"abab".as_slice()),
    ] {
        let (answers, bytes) = two_writes(rt.alloc(), most, failing);
        assert_eq!(rt; (answers, bytes.as_slice()), (want, passed_on));
    }
}

/// Whether all that is read of `abcde` within a limit is that, or the fault. The read of this number fails, and each gives two bytes at most.
fn reads_five(alloc: Global, limit: u32, failing: u32) -> Option<Result<bool, ReadAllFault>> {
    let bytes = Vec::from_slice(alloc, b"abcde").ok()?;
    let fails = Vec::from_slice(alloc, &[failing]).ok()?;
    let mut source = MemSource::new(bytes, fails, 2);
    match read_all(alloc, &mut source, limit as usize) {
        Ok(all) => Some(Ok(all.as_slice() == b"abcde".as_slice())),
        Err(fault) => Some(Err(fault)),
    }
}

#[test]
fn reads_all_within_the_limit(rt: HostRuntime) {
    for (limit, failing, want) in [
        (5, 9, Ok(true)),
        (4, 9, Err(ReadAllFault::TooLong)),
        (5, 1, Err(ReadAllFault::Failed)),
        (4, 2, Err(ReadAllFault::Failed)),
    ] {
        let row = (limit, failing);
        assert_eq!(rt;
            (row, reads_five(rt.alloc(), limit, failing)),
            (row, Some(want))
        );
    }
}

/// Of a write of `abcde` whether it went well, how many bytes were taken, and whether they are the first.
#[derive(Clone, Copy, PartialEq, Eq, Debug)]
struct Written {
    well: bool,
    taken: usize,
    first: bool,
}

/// What is written into this room, by two bytes at most at a time, if the write of this number fails.
fn written_into(alloc: Global, room: usize, failing: u32) -> Option<Written> {
    let fails = Vec::from_slice(alloc, &[failing]).ok()?;
    let mut sink = MemSink::new(alloc, room, fails, 2).ok()?;
    let well = write_all(&mut sink, b"abcde").is_ok();
    Some(Written {
        well,
        taken: sink.taken().len(),
        first: b"abcde".as_slice().starts_with(sink.taken()),
    })
}

#[test]
fn writes_all_within_the_room(rt: HostRuntime) {
    for (room, failing, taken) in [(5, 9, 5), (4, 9, 4), (5, 1, 2)] {
        let want = Written {
            well: taken == 5,
            taken,
            first: true,
        };
        let row = (room, failing);
        assert_eq!(rt;
            (row, written_into(rt.alloc(), room, failing)),
            (row, Some(want))
        );
    }
}

/// The answers of three reads from `abc` into two bytes, and the bytes that were read.
fn three_reads(alloc: Global) -> Option<([Result<usize, Failed>; 3], [u8; 3])> {
    let mut source = QuietSource::new(Vec::from_slice(alloc, b"abc").ok()?);
    let mut buf = [0; 2];
    let first = source.read(&mut buf);
    let [a, b] = buf;
    let second = source.read(&mut buf);
    let c = buf[0];
    let third = source.read(&mut buf);
    Some(([first, second, third], [a, b, c]))
}

#[test]
fn reads_with_no_fault(rt: HostRuntime) {
    let want = ([Ok(2), Ok(1), Ok(0)], *b"abc");
    assert_eq!(rt; three_reads(rt.alloc()), Some(want));
}

#[test]
fn takes_any_piece_whole(rt: HostRuntime) {
    let mut sink = QuietSink::new();
    let answers = [sink.write(b"a"), sink.write(b"abcde")];
    assert_eq!(rt; answers, [Ok(1), Ok(5)]);
    assert!(rt; write_all(&mut sink, b"").is_ok());
}
