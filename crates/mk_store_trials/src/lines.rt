//! Lines in pieces of every size, failing calls, and the standard adapters.

ghost use Rattle.std.specs.Prelude.{ℕ, ◌≤◌, List, length};

use mk_io::{
    Inputs, Lines, MemoryInputs, MemorySink, NamedFile, Next, Sink, StdInputs, StdSink, write_all,
};
use std::alloc::{AllocError, Global};
use std::process::Abort;
use std::test::Fail;

// The commands in memory, without files.
fn inputs_of(
    alloc: Global,
    commands: &[u8],
    piece: usize,
    failing: &[u64],
) -> Result<MemoryInputs, AllocError>
    requires { 1 ≤ piece }
{
    let failing = failing.to_vec(alloc)?;
    let commands = commands.to_vec(alloc)?;
    Ok(MemoryInputs::new(Vec::new(alloc), commands, piece, failing))
}

// Asks for as many answers as are expected, each with its text.
fn expect_lines<I: Inputs>(rt: &impl Abort, inputs: &mut I, expected: &[(Next, &[u8])]) {
    let mut lines = Lines::new();
    for (answer, text) in expected {
        let got = lines.next(inputs);
        assert_eq!(rt; got, *answer);
        assert!(rt; lines.line() == *text);
    }
}

// In pieces of one size.
fn expect_pieces(
    rt: &impl Abort,
    alloc: Global,
    stream: &[u8],
    piece: usize,
    expected: &[(Next, &[u8])],
) -> Result<(), AllocError>
    requires { 1 ≤ piece }
{
    let mut inputs = inputs_of(alloc, stream, piece, &[])?;
    expect_lines(rt, &mut inputs, expected);
    drop(inputs);
    Ok(())
}

// In pieces of each size.
fn expect_in_pieces(
    rt: &impl Abort,
    alloc: Global,
    stream: &[u8],
    expected: &[(Next, &[u8])],
) -> Result<(), AllocError> {
    for piece in [1, 2, 3, 4096] {
        assert!(rt; piece >= 1);
        expect_pieces(rt, alloc, stream, piece, expected)?;
    }
    Ok(())
}

#[test]
fn short_lines(rt: HostRuntime) -> Result<(), Fail> {
    let stream = b"a\rb\nc\r\n\n  \n\r\r\nd";
    let expected: [(Next, &[u8]); 8] = [
        (Next::Line, b"a\rb"),
        (Next::Line, b"c"),
        (Next::Line, b""),
        (Next::Line, b"  "),
        (Next::Line, b"\r"),
        (Next::Line, b"d"),
        (Next::End, b""),
        (Next::End, b""),
    ];
    expect_in_pieces(&rt, rt.alloc(), stream, &expected)?;
    expect_in_pieces(
        &rt,
        rt.alloc(),
        b"\r",
        &[(Next::Line, b""), (Next::End, b"")],
    )?;
    expect_in_pieces(&rt, rt.alloc(), b"", &[(Next::End, b""), (Next::End, b"")])?;
    Ok(())
}

// The line is the first bytes of the stream, so many, or it is too long.
fn expect_line(
    rt: &impl Abort,
    alloc: Global,
    stream: &[u8],
    size: usize,
    is_short: bool,
) -> Result<(), AllocError>
    requires { size ≤ length stream.now }
{
    let line: (Next, &[u8]) = if is_short {
        (Next::Line, &stream[..size])
    } else {
        (Next::Long, b"")
    };
    expect_in_pieces(rt, alloc, stream, &[line, (Next::End, b"")])
}

// A line of so many bytes before its end.
fn expect_limit(
    rt: &impl Abort,
    alloc: Global,
    size: usize,
    end: &str,
    is_short: bool,
) -> Result<(), AllocError> {
    let mut stream = vec![in alloc; b'x'; size]?;
    stream.extend_from_slice(end.as_bytes())?;
    expect_line(rt, alloc, &stream, size, is_short)
}

#[test]
fn lines_at_the_limit(rt: HostRuntime) -> Result<(), Fail> {
    let alloc = rt.alloc();
    expect_limit(&rt, alloc, 1024, "\n", true)?;
    expect_limit(&rt, alloc, 1025, "\n", false)?;
    expect_limit(&rt, alloc, 1023, "\r\n", true)?;
    expect_limit(&rt, alloc, 1024, "\r\n", false)?;
    expect_limit(&rt, alloc, 3000, "", false)?;
    Ok(())
}

#[test]
fn a_read_fails_within_a_line(rt: HostRuntime) -> Result<(), Fail> {
    let mut inputs = inputs_of(rt.alloc(), b"ab\ncdef\n", 5, &[2])?;
    let expected: [(Next, &[u8]); 3] = [
        (Next::Line, b"ab"),
        (Next::ReadFault, b""),
        (Next::ReadFault, b""),
    ];
    expect_lines(&rt, &mut inputs, &expected);
    // the read that failed took no byte, and the stopped lines read nothing
    let mut left = [0; 8];
    assert!(rt; inputs.read_commands(&mut left) == Ok(3));
    assert!(rt; left[..3] == b"ef\n"[..]);
    drop(inputs);
    Ok(())
}

#[test]
fn nothing_is_read_behind_a_last_line(rt: HostRuntime) -> Result<(), Fail> {
    // a third read would fail
    let mut inputs = inputs_of(rt.alloc(), b"ab", 5, &[3])?;
    let expected: [(Next, &[u8]); 3] = [(Next::Line, b"ab"), (Next::End, b""), (Next::End, b"")];
    expect_lines(&rt, &mut inputs, &expected);
    assert_eq!(rt; inputs.calls(), 2);
    drop(inputs);
    Ok(())
}

// Whether a line is held before each of the next answers, which then reads nothing.
fn expect_held(rt: &impl Abort, inputs: &mut MemoryInputs, expected: &[bool]) {
    let mut lines = Lines::new();
    for held in expected {
        assert!(rt; lines.holds_line() == *held);
        let calls = inputs.calls();
        let _ = lines.next(inputs);
        assert!(rt; (inputs.calls() == calls) == *held);
    }
}

#[test]
fn holds_the_lines_that_were_read_whole(rt: HostRuntime) -> Result<(), Fail> {
    let mut inputs = inputs_of(rt.alloc(), b"a\nb\nc\nd", 5, &[])?;
    // The first read ends behind the first byte of the third line, and the second one with the stream.
    expect_held(&rt, &mut inputs, &[false, true, false, false]);
    drop(inputs);
    Ok(())
}

// Writes three bytes into a sink with so much room, so many in a piece, where some writes fail;
// these are kept.
fn expect_kept(
    rt: &impl Abort,
    alloc: Global,
    room: usize,
    piece: usize,
    failing: &[u64],
    kept: &[u8],
) -> Result<(), AllocError>
    requires { 1 ≤ piece }
{
    let failing = failing.to_vec(alloc)?;
    let mut out = MemorySink::new(vec![in alloc; 0; room]?, piece, failing);
    assert!(rt; write_all(&mut out, b"abc").is_ok() == (kept.len() == 3));
    assert!(rt; out.written() == kept);
    drop(out);
    Ok(())
}

#[test]
fn writes_go_on_until_one_fails_or_the_sink_is_full(rt: HostRuntime) -> Result<(), Fail> {
    let alloc = rt.alloc();
    expect_kept(&rt, alloc, 8, 1, &[], b"abc")?;
    expect_kept(&rt, alloc, 8, 1, &[3], b"ab")?;
    expect_kept(&rt, alloc, 2, 4, &[], b"ab")?;
    Ok(())
}

// The three bytes of the one file.
fn expect_file<I: Inputs>(rt: &impl Abort, inputs: &mut I)
    requires { (name : List ℕ) → I.admits name }
{
    let mut buf = [0; 4];
    assert!(rt; inputs.open_market("other.toml").is_err());
    assert!(rt; inputs.open_market("coin.toml").is_ok());
    assert!(rt; inputs.read_market(&mut buf) == Ok(3));
    assert!(rt; buf == [7, 7, 7, 0]);
}

#[test]
fn a_file_in_memory(rt: HostRuntime) -> Result<(), Fail> {
    let alloc = rt.alloc();
    let file = NamedFile {
        name: String::from_str(alloc, "coin.toml")?,
        bytes: vec![in alloc; 7; 3]?,
    };
    let mut inputs = MemoryInputs::new(vec![in alloc; file]?, Vec::new(alloc), 4, Vec::new(alloc));
    expect_file(&rt, &mut inputs);
    drop(inputs);
    Ok(())
}

// Reads of a file of zeros, behind those where no file is open.
fn expect_zeros<I: Inputs>(rt: &impl Abort, inputs: &mut I)
    requires { (name : List ℕ) → I.admits name }
{
    let mut buf = [1; 4];
    assert!(rt; inputs.read_market(&mut buf) == Ok(0));
    assert!(rt; inputs.open_market("no such file").is_err());
    assert!(rt; inputs.read_market(&mut buf) == Ok(0));
    assert!(rt; inputs.open_market("/dev/zero").is_ok());
    assert!(rt; inputs.read_market(&mut buf) == Ok(4));
    assert!(rt; buf == [0; 4]);
}

// Writes of nothing and of a line.
fn expect_writes<S: Sink>(rt: &impl Abort, out: &mut S) {
    assert!(rt; out.write(b"") == Ok(0));
    assert!(rt; write_all(out, b"written through\n").is_ok());
}

#[test]
fn files_and_the_standard_output(rt: HostRuntime) -> Result<(), Fail> {
    expect_zeros(&rt, &mut StdInputs::new(&rt));
    expect_writes(&rt, &mut StdSink::new(&rt));
    Ok(())
}
