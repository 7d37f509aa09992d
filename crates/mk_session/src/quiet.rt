//! A run over inputs that never fail.

ghost use Rattle.std.specs.Prelude.{◌≡◌, ◌≤◌, ◌⊎◌, map, Err, IsOk};
ghost use Rattle.mk_session.specs.Below.{named, file_or_empty, file_of};
ghost use Rattle.mk_file.specs.declared.fault.FileFault.{FileFault};
ghost use Rattle.mk_session.specs.Complete.{AreWithin};

use crate::run::serve;
use mk_io::{NamedFile, QuietInputs, QuietSink, Status};
use std::alloc::Global;

/// Runs the market of the file `name` over all commands, with both in memory, and keeps nothing of
/// the output. The run is `Done` where the file is accepted and the commands are within the limits,
/// and `MarketRefused` where the file is refused, unless memory is wanting.
pub fn serve_quiet(
    alloc: Global,
    name: &str,
    files: Vec<NamedFile>,
    commands: Vec<u8>,
    piece: usize,
) -> Status
    requires { 1 ≤ piece }
    ensures complete { IsOk (file_of (file_or_empty (map named files.items) name.now))
        → AreWithin commands.items →
        (result ≡ Status.Done) ⊎ (result ≡ Status.Memory) }
    ensures refused { (fault : FileFault)
        → file_of (file_or_empty (map named files.items) name.now) ≡ Err fault →
        (result ≡ Status.MarketRefused) ⊎ (result ≡ Status.Memory) }
{
    let mut inputs = QuietInputs::new(files, commands, piece);
    let mut out = QuietSink::new();
    serve(alloc, name, &mut inputs, &mut out)
}
