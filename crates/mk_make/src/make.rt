//! The file and the commands of a sample market.

ghost use Rattle.std.specs.Prelude.{◌≡◌, ◌≤◌, IfOk};
ghost use Rattle.mk_net.specs.Bounds.{max_variables};
ghost use Rattle.mk_make.specs.Sample.{sample_file, sample_commands};

use crate::commands::put_commands;
use crate::file::put_file;
use crate::texts::{Bytes, Sample};
use mk_net::NoMemory;
use std::alloc::Global;

/// The sample market of `n` variables, from 2 to 256: a chain in which each variable after the first has the one before it
/// as its parent, and commands by which eight users join, pay in, make `5n/2` edits (rounded down) and settle.
/// The texts are those of `sample_file` and `sample_commands` in `specs/`. Fails where memory is wanting.
pub fn sample(alloc: Global, n: u32) -> Result<Sample, NoMemory>
    requires least { 2 ≤ n }
    requires most { n ≤ max_variables }
    ensures file { IfOk result (λ s. s.file ≡ sample_file n) }
    ensures commands { IfOk result (λ s. s.commands ≡ sample_commands n) }
{
    let mut file = Vec::new(alloc);
    put_file(&mut file, n)?;
    let mut commands = Vec::new(alloc);
    put_commands(&mut commands, n)?;
    Ok(Sample {
        file: Bytes::of(file),
        commands: Bytes::of(commands),
    })
}
