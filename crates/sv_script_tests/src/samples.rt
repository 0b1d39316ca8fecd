// Replies and lists of files that several tests print.
use std::alloc::Global;
use sv_model::{FileNumber, Items, OutOfMemory, Refusal, SvSerial, Value};
use sv_script::Reply;

pub fn files(alloc: Global, numbers: &[u64]) -> Result<Items<FileNumber>, OutOfMemory> {
    let files = numbers.iter().map(|n| FileNumber(*n)).collect(alloc)?;
    Ok(Items::from_vec(files))
}

pub fn found(alloc: Global, value: &[u8]) -> Result<Reply, Refusal> {
    Ok(Reply::Found {
        value: Value::new(alloc, value)?,
        cut: 1,
        sv: SvSerial(4),
    })
}
