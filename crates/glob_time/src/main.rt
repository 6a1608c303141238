//! A program for measurements: `glob_time PATTERN LENGTH` matches a glob against a text of LENGTH letters `a`.
//!
//! Standard output has the answer. Standard error has the time to read the glob, and the time of the match. The default glob
//! is `*a*a*a*a*b`, and the default length 10,000.
#![tactic(auto)]

use find_tests::{Test, TestName, glob_match, parse_test};
use std::time::Instant;
use std::{env, io};

fn main(rt: HostRuntime) -> io::Result<()> {
    let alloc = rt.alloc();
    let mut words = env::args(&rt)?;
    let _ = words.next();
    let pattern = words.next();
    let pattern = pattern.as_ref().map_or("*a*a*a*a*b", |word| word.as_str());
    let length = words
        .next()
        .and_then(|word| word.parse::<u32>().ok())
        .unwrap_or(10_000);
    let mut text = String::new(alloc);
    for _ in 0..length {
        text.push('a')?;
    }
    let start = Instant::now(&rt)?;
    let Ok(Test::Name(glob)) = parse_test(alloc, TestName::Name, pattern) else {
        return eprintln!(rt; "no memory");
    };
    eprintln!(rt; "read in {:?}", start.elapsed(&rt)?)?;
    let start = Instant::now(&rt)?;
    let matches = glob_match(&glob, text.as_str());
    eprintln!(rt; "matched in {:?}", start.elapsed(&rt)?)?;
    println!(rt; "{matches}")
}
