//! Reading a market file.

ghost use Rattle.std.specs.Prelude.{◌≡◌, ◌≢◌, ℕ, ◌<◌, length, Some, None, Ok, Err, IfOk, IfErr};
ghost use Rattle.mk_file.specs.Below.{table_view, IsTreeOf};
ghost use Rattle.mk_file.specs.File.{file_of, of_document, document_of, max_file_bytes};
ghost use Rattle.mk_file.specs.inner.Views.{Gives};
ghost use Rattle.mk_file.specs.MarketOf.{market_of};

use crate::accept::accept;
use crate::fault::FileFault;
use crate::market_file::MarketFile;
use crate::walk::read_draft;
use std::alloc::Global;
use toml::Table;

/// The most bytes of a market file.
pub const MAX_FILE_BYTES: usize = 1_048_576;

/// The document of some bytes.
fn read_document(alloc: Global, bytes: &[u8]) -> Result<Table, FileFault>
    ensures document { IfOk result (λ document. document_of bytes.now ≡ Some (table_view document)) }
    ensures refused { IfErr result (λ fault. fault ≢ FileFault.Memory → (fault ≡ FileFault.BadToml) × (document_of bytes.now ≡ None)) }
{
    match toml::table_from_slice(alloc, bytes) {
        Ok(document) => Ok(document),
        Err(error) if error.is_memory() => Err(FileFault::Memory),
        Err(_) => Err(FileFault::BadToml),
    }
}

/// The market of a document.
fn read_market_in(alloc: Global, document: &Table) -> Result<MarketFile, FileFault>
    ensures market { Gives market_of result (of_document (Some (table_view document.now))) }
    ensures tree { IfOk result (λ file. IsTreeOf file.net file.tree) }
{
    let draft = read_draft(alloc, document)?;
    accept(alloc, &draft)
}

/// Reads a market file, and answers its first fault where it has one. Only the length is looked at before memory is
/// taken.
pub fn read_market(alloc: Global, bytes: &[u8]) -> Result<MarketFile, FileFault>
    ensures accepted { IfOk result (λ file. file_of bytes.now ≡ Ok (market_of file)) }
    ensures refused { IfErr result (λ fault. fault ≢ FileFault.Memory → file_of bytes.now ≡ Err fault) }
    ensures too_long { max_file_bytes < length bytes.now → result ≡ Err FileFault.TooLong }
    ensures tree { IfOk result (λ file. IsTreeOf file.net file.tree) }
{
    if bytes.len() > MAX_FILE_BYTES {
        return Err(FileFault::TooLong);
    }
    let document = read_document(alloc, bytes)?;
    read_market_in(alloc, &document)
}
