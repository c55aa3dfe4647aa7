//! Whole reads and puts over memory, and the calls of `Text`.
use std::test::Fail;
use upc_text::{
    Failed, Gate, MemFiles, MemSink, OpenGate, ReadEnd, SureFiles, SureSink, Text, put_all,
    read_all,
};

const LONG: [u8; 600] = [b'x'; 600];

/// How many bytes were read.
fn length(got: Result<Vec<u8>, ReadEnd>) -> Result<usize, ReadEnd> {
    match got {
        Ok(bytes) => Ok(bytes.len()),
        Err(end) => Err(end),
    }
}

// Which reads fail, how many bytes a read gives at most, and what comes of 600 bytes.
const READS: [(&[u64], usize, Result<usize, ReadEnd>); 6] = [
    (&[], 512, Ok(600)),
    (&[], 1, Ok(600)),
    (&[1], 512, Err(ReadEnd::ReadFault)),
    (&[2], 512, Err(ReadEnd::ReadFault)),
    (&[3], 512, Err(ReadEnd::ReadFault)),
    (&[4], 512, Ok(600)),
];

// Short reads are joined, and a read that fails is no end of the source: with 512 bytes a call, a file of 600 bytes
// takes three reads, the third of which meets the end.
#[test]
fn reads_all(rt: HostRuntime) -> Result<(), Fail> {
    for (fails, most, want) in &READS {
        assert!(rt; *most > 0);
        let mut files = MemFiles::make(rt.alloc(), fails, *most)?;
        files.add("a.upc", &LONG)?;
        let got = length(read_all(rt.alloc(), &mut files, "a.upc"));
        assert!(rt; got == *want, "{most}");
    }
    let mut files = MemFiles::make(rt.alloc(), &[], 512)?;
    let missing = length(read_all(rt.alloc(), &mut files, "a.upc"));
    assert!(rt; missing == Err(ReadEnd::ReadFault));
    Ok(())
}

// A source of 1,048,576 bytes is read, and one byte more is too long.
#[test]
fn reads_up_to_the_limit(rt: HostRuntime) -> Result<(), Fail> {
    for (count, want) in [
        (0, Ok(0)),
        (1_048_576, Ok(1_048_576)),
        (1_048_577, Err(ReadEnd::TooLong)),
    ] {
        let bytes = vec![in rt.alloc(); b'\n'; count]?;
        let mut files = SureFiles::make(rt.alloc())?;
        files.add("a.upc", &bytes)?;
        let got = length(read_all(rt.alloc(), &mut files, "a.upc"));
        assert!(rt; got == want, "{count}");
        let missing = length(read_all(rt.alloc(), &mut files, "b.upc"));
        assert!(rt; missing == Ok(0));
    }
    Ok(())
}

// Which puts fail, whether all is put, and what the sink takes.
const PUTS: [(&[u64], Result<(), Failed>, &[u8]); 4] = [
    (&[], Ok(()), b"79800\n"),
    (&[1], Err(Failed), b""),
    (&[2], Err(Failed), b"7980"),
    (&[3], Ok(()), b"79800\n"),
];

// Short puts are continued, and after a put that fails the sink holds what was put before.
#[test]
fn puts_all(rt: HostRuntime) -> Result<(), Fail> {
    for (fails, want, taken) in &PUTS {
        let mut sink = MemSink::make(rt.alloc(), fails, 4)?;
        assert!(rt; put_all(&mut sink, b"79800\n") == *want);
        assert!(rt; sink.taken() == *taken);
    }
    let mut sink = SureSink::make();
    assert_eq!(rt; put_all(&mut sink, b"79800\n"), Ok(()));
    OpenGate.round_begins(0, 1);
    Ok(())
}

#[test]
fn texts(rt: HostRuntime) -> Result<(), Fail> {
    let mut text = Text::new(rt.alloc());
    assert!(rt; text.is_empty());
    text.push(b'a')?;
    text.push_slice(b"bc")?;
    let mut longer = text.copy(rt.alloc())?;
    assert!(rt; longer == text && longer == text.clone()?);
    longer.push(b'd')?;
    assert!(rt; longer != text && longer.len() == 4);
    assert_eq!(rt; text.as_slice(), b"abc".as_slice());
    assert!(rt; longer == Text::from_slice(rt.alloc(), b"abcd")?);
    Ok(())
}

// Copies of a shared text are the text, and what is added to one of them stands in no other.
#[test]
fn shared_texts(rt: HostRuntime) -> Result<(), Fail> {
    let text = Text::from_slice(rt.alloc(), b"abc")?.share()?.share()?;
    let mut longer = text.copy(rt.alloc())?;
    let mut last = text.clone()?;
    longer.push(b'd')?;
    last.push_slice(b"de")?;
    last.push(b'f')?;
    assert_eq!(rt; text.as_slice(), b"abc".as_slice());
    assert_eq!(rt; longer.as_slice(), b"abcd".as_slice());
    assert_eq!(rt; last.as_slice(), b"abcdef".as_slice());
    assert!(rt; !text.is_empty() && text.len() == 3 && text != longer);
    drop(text);
    assert!(rt; longer.share()? == Text::from_slice(rt.alloc(), b"abcd")?);
    Ok(())
}
