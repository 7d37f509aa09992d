//! Tallies, and runs over inputs that never fail.

use mk_file::FileFault;
use mk_fixtures::COIN;
use mk_io::{MemorySink, NamedFile, QuietInputs, QuietSink, Sink, Status};
use mk_session::{LineBuffer, print_reply_line, serve, serve_quiet};
use mk_tally::{Tally, TallyFault, tally};
use std::alloc::{AllocError, Global};
use std::process::Abort;
use std::test::Fail;

/// Commands to the market of a coin, how many replies, trades and refusals they have, and the line of the last reply.
struct CountedRun {
    commands: &'static str,
    counts: (u32, u32, u32),
    last: &'static str,
}

/// Rows of commands, with the counts and the last line.
macro_rules! counted_runs {
    ($($commands:literal -> $counts:tt $last:literal;)*) => {
        [$(CountedRun {
            commands: $commands,
            counts: $counts,
            last: $last,
        }),*]
    };
}

/// In the last row alice pays in 100 points, and has 100 * log2(0.6 / 0.5) = 26.3 more where heads comes.
const COINS: [CountedRun; 6] = counted_runs! {
    "" -> (0, 0, 0) "";
    "\n   \n\r\n" -> (0, 0, 0) "";
    "price coin=heads\n\n   \nprice coin=side\n\n" -> (2, 0, 1) "refused name coin=side\n";
    "price coin=side\nprice coin\nprice coin=tails" -> (3, 0, 2)
        "price 0.5000000000..0.5000000000\n";
    "user alice\ndeposit alice 1\nspread alice coin to 500000\nspread alice coin to 600000 400000\nspread alice coin to 1 2" -> (5, 1, 2)
        "refused sum 3\n";
    "user alice\n\ndeposit alice 1\n   \nedit alice coin=heads to 600000\nedit alice coin=heads to 999999\nresolve coin=heads\nsettle" -> (6, 1, 1)
        "settle at 5, alice 126..126 paid 126\n";
};

/// Stops unless the counts are these, and this is the line of the last reply.
fn expect_tally(rt: &impl Abort, counted: &Tally, counts: (u32, u32, u32), last: &str) {
    let (replies, trades, refused) = counts;
    assert!(rt;
        counted.replies == replies && counted.trades == trades && counted.refused == refused
    );
    let mut line = LineBuffer::new();
    if let Some(reply) = &counted.last {
        print_reply_line(reply, &mut line);
    }
    assert!(rt; line.as_str() == last);
}

/// Expects these counts, and this line of the last reply, of a run on a coin.
fn expect_counts(
    rt: &impl Abort,
    alloc: Global,
    commands: &[u8],
    counts: (u32, u32, u32),
    last: &str,
) {
    let counted = tally(alloc, COIN.as_bytes(), commands)
        .ok()
        .expect(rt, "an accepted file");
    expect_tally(rt, &counted, counts, last);
}

/// Each line that is not blank has one reply, and it is counted.
#[test]
fn each_reply_is_counted(rt: HostRuntime) {
    for row in &COINS {
        expect_counts(
            &rt,
            rt.alloc(),
            row.commands.as_bytes(),
            row.counts,
            row.last,
        );
    }
}

/// A line of 1,024 bytes is not too long.
#[test]
fn counted_long_lines(rt: HostRuntime) -> Result<(), Fail> {
    let commands = vec![in rt.alloc(); b'a'; 1_025]?;
    let most = &commands[..1_024];
    expect_counts(&rt, rt.alloc(), most, (1, 0, 1), "refused syntax\n");
    expect_counts(&rt, rt.alloc(), &commands, (1, 0, 1), "refused long\n");
    Ok(())
}

/// Stops unless a file that is no TOML is not counted.
fn expect_uncounted(rt: &impl Abort, alloc: Global, commands: &[u8]) {
    let counted = tally(alloc, b"points_per_bit = \n", commands);
    assert!(rt; matches!(counted, Err(TallyFault::Market(FileFault::BadToml))));
}

/// A refused file is not counted, whatever the commands.
#[test]
fn uncounted_file(rt: HostRuntime) {
    expect_uncounted(&rt, rt.alloc(), b"");
    expect_uncounted(&rt, rt.alloc(), b"settle\n");
}

/// One file, of a coin.
fn coin_file(alloc: Global) -> Result<Vec<NamedFile>, AllocError> {
    let file = NamedFile {
        name: String::from_str(alloc, "m.toml")?,
        bytes: COIN.as_bytes().to_vec(alloc)?,
    };
    Ok(vec![in alloc; file]?)
}

/// The status of a quiet run over the file of this name, on which there is a coin under `m.toml`.
fn quiet_status(alloc: Global, name: &str, commands: &[u8]) -> Result<Status, AllocError> {
    let files = coin_file(alloc)?;
    let commands = commands.to_vec(alloc)?;
    Ok(serve_quiet(alloc, name, files, commands, 64))
}

const COMMANDS: &[u8] = b"price coin=heads\nprice coin=side\n";

const OUTPUT: &[u8] = b"ready 1 100\nprice 0.5000000000..0.5000000000\nrefused name coin=side\n";

/// A run over quiet inputs is written whole into a sink that keeps what it is given.
fn expect_written(rt: &impl Abort, alloc: Global, out: &mut MemorySink) -> Result<(), AllocError> {
    let files = coin_file(alloc)?;
    let mut inputs = QuietInputs::new(files, COMMANDS.to_vec(alloc)?, 64);
    let status = serve(alloc, "m.toml", &mut inputs, out);
    assert!(rt; status == Status::Done);
    assert!(rt; out.written() == OUTPUT);
    Ok(())
}

#[test]
fn quiet_run(rt: HostRuntime) -> Result<(), Fail> {
    let status = quiet_status(rt.alloc(), "m.toml", COMMANDS)?;
    assert!(rt; status == Status::Done);
    let room = vec![in rt.alloc(); 0u8; 128]?;
    let mut out = MemorySink::new(room, 64, Vec::new(rt.alloc()));
    expect_written(&rt, rt.alloc(), &mut out)?;
    Ok(())
}

/// A name that no file has is that of an empty file, and a quiet sink takes every piece whole.
#[test]
fn quiet_edges(rt: HostRuntime) -> Result<(), Fail> {
    let status = quiet_status(rt.alloc(), "none.toml", b"")?;
    assert!(rt; status == Status::MarketRefused);
    let mut sink = QuietSink::new();
    assert!(rt; matches!(sink.write(b"ready"), Ok(5)));
    Ok(())
}
