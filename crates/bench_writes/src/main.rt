//! `bench_writes BITS ROUNDS` makes attempts of 256 writes each, with as many looks at them, and prints how many looks found
//! their value. BITS is 64 or 1024, the length of a signature. Without words it makes one attempt.
#![tactic(auto)]

mod attempt;

use attempt::{HEAP, repeat};
use ring_core::{Local, Shape};
use std::{env, io};

fn main(rt: HostRuntime) -> io::Result<()> {
    let args = env::args(&rt)?;
    let words: Vec<String> = args.skip(1).collect(rt.alloc())?;
    let (bits, rounds) = asked(words.as_slice());
    let shape = Shape {
        ring: 1,
        sig_words: if bits == 1024 { 16 } else { 1 },
        heap: HEAP,
        life: 1,
    };
    match Local::new(rt.alloc(), shape) {
        Ok(mut local) => {
            let found = repeat(&mut local, rounds);
            println!(rt; "{found} looks found their value")
        }
        Err(_) => println!(rt; "no memory"),
    }
}

// The length of a signature, and how many attempts are made.
fn asked(words: &[String]) -> (u64, u64) {
    match words {
        [bits, rounds] => (bits.parse().unwrap_or(64), rounds.parse().unwrap_or(1)),
        _ => (64, 1),
    }
}
