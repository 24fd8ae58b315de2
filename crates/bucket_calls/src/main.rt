//! Calls of a bucket at the command line: reads a call a line from standard input, makes it on the bucket in the folder `bucket`,
//! and prints the answer with the counts of calls and faults.
#![tactic(auto)]

mod answers;

use answers::answer;
use pb_devices::Bucket;
use pb_host::HostBucket;
use std::io;

fn main(rt: HostRuntime) -> io::Result<()> {
    let mut bucket = HostBucket::new(rt.alloc(), rt, "bucket")?;
    for line in rt.lines(rt.alloc()) {
        let said = answer(rt.alloc(), &mut bucket, line?.as_str())?;
        let (calls, faults) = (bucket.calls(), bucket.faults());
        println!(rt; "{said}; calls {calls}; faults {faults}")?;
    }
    Ok(())
}
