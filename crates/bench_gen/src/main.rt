//! `bench_gen COUNT` makes the mailbox of COUNT messages, and prints how many bytes it has. Without words it makes one message.
#![tactic(auto)]

use mail_gen::make_mbox;
use std::{env, io};

fn main(rt: HostRuntime) -> io::Result<()> {
    let args = env::args(&rt)?;
    let words: Vec<String> = args.skip(1).collect(rt.alloc())?;
    let count = match words.as_slice() {
        [count] => count.parse().unwrap_or(1),
        _ => 1,
    };
    match make_mbox(rt.alloc(), count) {
        Ok(bytes) => println!(rt; "{} bytes", bytes.len()),
        Err(error) => println!(rt; "{error}"),
    }
}
