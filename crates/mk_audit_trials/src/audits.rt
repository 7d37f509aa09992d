//! Transcripts of a coin's market, right and wrong ones, and the transcript of a sample market.

ghost use Rattle.std.specs.Prelude.{◌≤◌};

use mk_audit::audit_named;
use mk_fixtures::COIN;
use mk_io::{MemorySink, NamedFile, QuietInputs, Status};
use mk_make::sample;
use mk_session::serve;
use std::alloc::{AllocError, Global};
use std::process::Abort;
use std::test::Fail;

/// Commands to the coin, between which a blank line stands.
const COMMANDS: &str = "user alice
deposit alice 1

limits alice coin=heads
edit alice coin=heads to 600000 at 2
";

/// The first replies to the commands.
const START: &str = "ready 1 100
user alice at 1
deposit alice 1 at 2
";

/// What follows the first replies in a transcript, each with its verdict.
const GONE_ON: [(&str, &str); 13] = [
    (
        "limits 250000..750000 at 2
trade 1319413953331 879609302220 at 3
",
        "audit yes 5\n",
    ),
    (
        "limits 250000..750001 at 2
trade 1319413953331 879609302220 at 3
",
        "audit no 4\n",
    ),
    (
        "limits 250001..750000 at 2
trade 1319413953331 879609302220 at 3
",
        "audit no 4\n",
    ),
    (
        "limits none at 2
trade 1319413953331 879609302220 at 3
",
        "audit no 4\n",
    ),
    (
        "limits 250000..750000 at 2
trade 1319413953330 879609302220 at 3
",
        "audit no 5\n",
    ),
    (
        "limits 250000..750000 at 2
trade 1319413953331 879609302221 at 3
",
        "audit no 5\n",
    ),
    (
        "limits 250000..750000 at 2
trade 1319413953331 879609302220 at 2
",
        "audit no 5\n",
    ),
    (
        "limits 250000..750000 at 2
refused beyond 250000..750000
",
        "audit no 5\n",
    ),
    (
        "limits 250000..750000 at 2
",
        "audit no 5\n",
    ),
    (
        "limits 250000..750000 at 2
trade 1319413953331 879609302220 at 3",
        "audit no 5\n",
    ),
    (
        "limits 250000..750000 at 2
trade 1319413953331 879609302220 at 3
none
",
        "audit no 6\n",
    ),
    (
        "limits 250000..750000 at 2
trade 1319413953331 879609302220 at 3

",
        "audit no 6\n",
    ),
    (
        "
limits 250000..750000 at 2
trade 1319413953331 879609302220 at 3
",
        "audit no 4\n",
    ),
];

/// Transcripts that begin in other ways, each with its verdict.
const TRANSCRIPTS: [(&str, &str); 4] = [
    (
        "ready 1 100
refused memory
refused user alice
refused user alice
refused user alice
",
        "audit yes 5\n",
    ),
    (
        "ready 1 100\r
user alice at 1
",
        "audit no 1\n",
    ),
    ("ready 1 100", "audit no 1\n"),
    ("", "audit no 1\n"),
];

/// A file in memory.
fn named(alloc: Global, name: &str, bytes: &[u8]) -> Result<NamedFile, AllocError> {
    Ok(NamedFile {
        name: String::from_str(alloc, name)?,
        bytes: bytes.to_vec(alloc)?,
    })
}

/// What was written of a run that ended well.
fn written_well(
    rt: &impl Abort,
    alloc: Global,
    out: MemorySink,
    status: Status,
) -> Result<Vec<u8>, AllocError> {
    assert!(rt; status == Status::Done);
    let written = out.written().to_vec(alloc);
    drop(out);
    written
}

/// What is written of an audit that ends well.
fn audited(
    rt: &impl Abort,
    alloc: Global,
    market: &[u8],
    commands: &[u8],
    transcript: &[u8],
) -> Result<Vec<u8>, AllocError> {
    let market = named(alloc, "market", market)?;
    let transcript = named(alloc, "transcript", transcript)?;
    let files = vec![in alloc; market, transcript]?;
    let mut inputs = QuietInputs::new(files, commands.to_vec(alloc)?, 4096);
    let mut out = MemorySink::new(vec![in alloc; 0u8; 64]?, 64, Vec::new(alloc));
    let status = audit_named(alloc, "market", "transcript", &mut inputs, &mut out);
    drop(inputs);
    written_well(rt, alloc, out, status)
}

/// The transcript of a market's run.
fn transcript_of(
    rt: &impl Abort,
    alloc: Global,
    market: &[u8],
    commands: &[u8],
) -> Result<Vec<u8>, AllocError> {
    let files = vec![in alloc; named(alloc, "market", market)?]?;
    let mut inputs = QuietInputs::new(files, commands.to_vec(alloc)?, 4096);
    let mut out = MemorySink::new(vec![in alloc; 0u8; 65536]?, 4096, Vec::new(alloc));
    let status = serve(alloc, "market", &mut inputs, &mut out);
    drop(inputs);
    written_well(rt, alloc, out, status)
}

/// Stops unless this is said of a transcript of the coin's market.
fn expect_verdict(
    rt: &impl Abort,
    alloc: Global,
    transcript: &[u8],
    verdict: &str,
) -> Result<(), AllocError> {
    let (market, commands) = (COIN.as_bytes(), COMMANDS.as_bytes());
    let said = audited(rt, alloc, market, commands, transcript)?;
    assert!(rt; &said[..] == verdict.as_bytes(), "{verdict}");
    drop(said);
    Ok(())
}

#[test]
fn transcripts_of_a_coin(rt: HostRuntime) -> Result<(), Fail> {
    for (next, verdict) in GONE_ON {
        let mut transcript = START.as_bytes().to_vec(rt.alloc())?;
        transcript.extend_from_slice(next.as_bytes())?;
        expect_verdict(&rt, rt.alloc(), &transcript, verdict)?;
        drop(transcript);
    }
    for (transcript, verdict) in TRANSCRIPTS {
        expect_verdict(&rt, rt.alloc(), transcript.as_bytes(), verdict)?;
    }
    Ok(())
}

/// How many questions a sample has whose transcript is audited.
const SAMPLES: [u32; 10] = [2, 3, 4, 5, 7, 12, 40, 128, 200, 256];

/// What is said of the transcript of a sample with so many questions.
fn said_of_sample(rt: &impl Abort, alloc: Global, questions: u32) -> Result<Vec<u8>, Fail> {
    assert!(rt; 2 <= questions && questions <= 256);
    let sample = sample(alloc, questions)?;
    let file = sample.file.bytes();
    let commands = sample.commands.bytes();
    let transcript = transcript_of(rt, alloc, file, commands)?;
    let said = audited(rt, alloc, file, commands, &transcript)?;
    drop(transcript);
    Ok(said)
}

#[test]
fn transcripts_of_samples(rt: HostRuntime) -> Result<(), Fail> {
    for questions in SAMPLES {
        let said = said_of_sample(&rt, rt.alloc(), questions)?;
        assert!(rt; said.starts_with(b"audit yes "), "{questions}");
        assert!(rt; questions != 200 || &said[..] == b"audit yes 718\n".as_slice());
        drop(said);
    }
    Ok(())
}
