//! Uploads of generated files.
ghost use Rattle.std.specs.Prelude.{◌≡◌, Some};
ghost use Rattle.xet_plan.specs.Footers.{FailsOnlyByFault};
ghost use Rattle.xet_generated.specs.Contents.{full_contents};
ghost use Rattle.xet_store.specs.StoreModel.{StoreModel};
ghost use Rattle.xet_store.specs.Refusals.{RefusedBy, OfGenerated, OfOutside};
ghost use Rattle.xet_store.specs.Acceptance.{AcceptsTerms};
ghost use Rattle.xet_store.specs.GeneratedUploads.{UploadsOne, UploadsAll, UploadsGenerated};

use crate::client::Client;
use std::alloc::Global;
use xet_generated::{GeneratedFile, GeneratedXorb, RandomFileContents};
use xet_shard::canonical_bytes;
use xet_types::ClientError;

/// Uploads a xorb with its footer.
fn upload_one<C: Client>(
    alloc: Global,
    client: &mut C,
    xorb: &GeneratedXorb,
) -> Result<(), ClientError>
    ensures told { (m : StoreModel) → C.told client.old ≡ Some m → UploadsOne m xorb.now result (C.told client.new) }
    ensures refusals { RefusedBy OfOutside result }
    ensures cause { FailsOnlyByFault (C.faults client.old) (C.faults client.new) result }
{
    let upload = xorb.upload()?;
    let _length = client.upload_xorb(alloc, "default", upload)?;
    Ok(())
}

/// Uploads xorbs, in order. Those before a refused one stay.
fn upload_all<C: Client>(
    alloc: Global,
    client: &mut C,
    xorbs: &[GeneratedXorb],
) -> Result<(), ClientError>
    ensures told { (m : StoreModel) → C.told client.old ≡ Some m → UploadsAll m xorbs.now result (C.told client.new) }
    ensures refusals { RefusedBy OfOutside result }
    ensures cause { FailsOnlyByFault (C.faults client.old) (C.faults client.new) result }
{
    for xorb in xorbs {
        upload_one(alloc, client, xorb)?;
    }
    Ok(())
}

/// Uploads a generated file: the xorb of each seed, in order of seed and each with its footer, and then the shard of the file. Answers
/// what the file holds, with the chunks of each xorb.
///
/// The terms and `chunk_size` are as for `insert_random_lazy_file`, and `InvalidArguments` comes as there, before anything is uploaded.
/// Where an upload is refused, those before it stay.
pub fn upload_random_file<C: Client>(
    alloc: Global,
    client: &mut C,
    term_spec: &[(u64, (u64, u64))],
    chunk_size: usize,
) -> Result<RandomFileContents, ClientError>
    ensures told { (m : StoreModel) → C.told client.old ≡ Some m → UploadsGenerated m term_spec.now chunk_size result (C.told client.new) }
    ensures refusals { RefusedBy OfGenerated result }
    ensures accepts { AcceptsTerms term_spec.now chunk_size (full_contents term_spec.now chunk_size) result }
    ensures cause { FailsOnlyByFault (C.faults client.old) (C.faults client.new) result }
{
    let file = GeneratedFile::new(alloc, term_spec, chunk_size)?;
    let shard = file.shard(alloc)?;
    let text = canonical_bytes(alloc, &shard)?;
    let contents = file.full_contents(alloc)?;
    upload_all(alloc, client, file.xorbs())?;
    let _accepted = client.upload_shard(alloc, text)?;
    Ok(contents)
}

#[cfg(test)]
mod tests;
