//! Lines are read and pieces written, in memory and over std, up to the end or a fault, and a run tells how it ended.

use ledger_bytes::Bytes;
use ledger_io::{
    Ending, LineErr, Lines, MemSink, MemSource, Sink, Source, StdSink, StdSource, Window, WriteErr,
    finish, write_all,
};
use std::alloc::{AllocError, Global};
use std::io;
use std::io::{Read, Write};
use std::test::Fail;

// The lines up to the end or an error, with a bar after each, and the error.
fn told_of<S: Source>(
    alloc: Global,
    lines: &mut Lines,
    source: &mut S,
) -> Result<(Vec<u8>, Option<LineErr>), AllocError> {
    let mut text = Vec::new(alloc);
    for _ in 0..20 {
        match lines.next(source) {
            Ok(Some(line)) => {
                text.extend_from_slice(line.as_slice())?;
                text.push(b'|')?;
            }
            Ok(None) => return Ok((text, None)),
            Err(error) => return Ok((text, Some(error))),
        }
    }
    Ok((text, None))
}

fn told_of_bytes(alloc: Global, bytes: &[u8]) -> Result<(Vec<u8>, Option<LineErr>), Fail> {
    let bytes = Bytes::copy_of(alloc, bytes)?;
    let mut source = MemSource::new(bytes, Vec::new(alloc));
    Ok(told_of(alloc, &mut Lines::new(alloc), &mut source)?)
}

#[test]
fn gives_lines(rt: HostRuntime) -> Result<(), Fail> {
    let rows: [(&[u8], &[u8]); 7] = [
        (b"", b""),
        (b"\n", b"|"),
        (b"a", b"a|"),
        (b"a\n", b"a|"),
        (b"a\nbc", b"a|bc|"),
        (b"\n\nab\n\n", b"||ab||"),
        (b"a\r\nb\r", b"a\r|b\r|"),
    ];
    for (bytes, want) in rows {
        let (text, error) = told_of_bytes(rt.alloc(), bytes)?;
        assert_eq!(rt; (text.as_slice(), error), (want, None));
    }
    Ok(())
}

#[test]
fn tells_faults(rt: HostRuntime) -> Result<(), Fail> {
    let rows: [(u64, &[u8]); 2] = [(0, b""), (1, b"ab|")];
    for (call, want) in rows {
        let bytes = Bytes::copy_of(rt.alloc(), b"ab\ncd")?;
        let mut source = MemSource::new(bytes, [call].to_vec(rt.alloc())?);
        let mut lines = Lines::new(rt.alloc());
        let (text, error) = told_of(rt.alloc(), &mut lines, &mut source)?;
        assert_eq!(rt; text.as_slice(), want);
        assert_eq!(rt; error, Some(LineErr::ReadFault));
        assert_eq!(rt; lines.next(&mut source).err(), Some(LineErr::ReadFault));
        assert_eq!(rt; source.faults(), 1);
    }
    Ok(())
}

// Takes at most so many bytes a call. Its flush may fail.
#[derive(Drop)]
struct Choppy {
    got: Vec<u8>,
    most: usize,
    flush_fails: bool,
}

impl Write for Choppy {
    fn write(&mut self, buf: &[u8]) -> io::Result<usize> {
        let count = buf.len().min(self.most);
        self.got.extend_from_slice(&buf[..count])?;
        Ok(count)
    }

    fn flush(&mut self) -> io::Result<()> {
        if self.flush_fails {
            return Err(io::ErrorKind::Other.into());
        }
        Ok(())
    }
}

#[test]
fn writes_over_std(rt: HostRuntime) -> Result<(), Fail> {
    let rows: [(usize, bool, Result<(), u64>, &[u8], u64); 3] = [
        (2, false, Ok(()), b"abcde", 0),
        (0, false, Err(0), b"", 0),
        (2, true, Err(0), b"ab", 1),
    ];
    for (most, flush_fails, want, got, faults) in rows {
        let mut writer = Choppy {
            got: Vec::new(rt.alloc()),
            most,
            flush_fails,
        };
        let mut sink = StdSink::new(&mut writer);
        let result = write_all(&mut sink, b"abcde");
        assert_eq!(rt;
            result,
            want.map_err(|taken| WriteErr::WriteFault { taken })
        );
        assert_eq!(rt; sink.faults(), faults);
        assert_eq!(rt; writer.got.as_slice(), got);
    }
    Ok(())
}

#[derive(Drop)]
struct Broken;

impl Read for Broken {
    fn read(&mut self, _: &mut [u8]) -> io::Result<usize> {
        Err(io::ErrorKind::Interrupted.into())
    }
}

#[test]
fn reads_over_std(rt: HostRuntime) -> Result<(), Fail> {
    let bytes: &[u8] = b"ab\nc";
    let mut source = StdSource::new(bytes);
    let (text, error) = told_of(rt.alloc(), &mut Lines::new(rt.alloc()), &mut source)?;
    assert_eq!(rt; text.as_slice(), b"ab|c|".as_slice());
    assert_eq!(rt; error, None);
    assert_eq!(rt; source.faults(), 0);

    let mut broken = StdSource::new(Broken);
    let (text, error) = told_of(rt.alloc(), &mut Lines::new(rt.alloc()), &mut broken)?;
    assert_eq!(rt; text.as_slice(), b"".as_slice());
    assert_eq!(rt; error, Some(LineErr::ReadFault));
    assert_eq!(rt; broken.faults(), 1);
    Ok(())
}

#[test]
fn ends_runs(rt: HostRuntime) -> Result<(), Fail> {
    let rows: [(Ending, u8, &[u8]); 7] = [
        (Ending::Done, 0, b""),
        (Ending::Usage, 1, b"fail 1 usage\n"),
        (Ending::ReadFault, 2, b"fail 2 read\n"),
        (Ending::WriteFault, 3, b""),
        (Ending::NoMemory, 6, b"fail 6 memory\n"),
        (Ending::LineTooLong, 7, b"fail 7 line\n"),
        (Ending::ScriptTooLong, 7, b"fail 7 script\n"),
    ];
    for (ending, status, line) in rows {
        let mut sink = MemSink::new(rt.alloc(), 64, Vec::new(rt.alloc()))?;
        let told = finish(&mut sink, ending);
        assert_eq!(rt; (told, sink.written()), (status, line), "at {ending:?}");
    }
    Ok(())
}

// The third call of the source fails, and isn't made: the second told the end.
#[test]
fn a_window_gives_its_bytes_away(rt: HostRuntime) -> Result<(), Fail> {
    let bytes = Bytes::copy_of(rt.alloc(), b"abcdefgh")?;
    let mut source = MemSource::new(bytes, [2].to_vec(rt.alloc())?);
    let mut window = Window::new(rt.alloc());
    for (want, held, place) in [(3, 8, 0), (7, 6, 2)] {
        assert!(rt; window.fill(&mut source, want).is_ok());
        assert!(rt; window.as_slice().len() == held && window.place() == place);
        if window.as_slice().len() >= 2 {
            window.consume(2);
        }
    }
    assert!(rt; window.as_slice() == b"efgh".as_slice() && window.place() == 4);
    assert!(rt; window.fill(&mut source, 9).is_ok());
    Ok(())
}
