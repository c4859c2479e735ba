//! A transaction goes on in a version of its own, and leaves every older version as it was, also where it fails.
//!
//! The program reads lines: `VERSION` and changes of a map, as `0: 1=100 2=20 -3`. It prints the new version, or why there is
//! none.
#![tactic(auto)]

mod transact;

use rpds::steps::Steps;
use rpds::table::{Command, IdentityBuild, Kind, Op, Table};
use std::io;
use transact::{Failure, transact};

// `KEY=VALUE` puts a pair in, `-KEY` takes one out.
fn parsed(word: &str) -> Option<Op<u64, u64>> {
    match word.strip_prefix("-") {
        Some(key) => Some(Op::Remove(key.parse().ok()?)),
        None => {
            let (key, value) = word.split_once('=')?;
            Some(Op::Insert(key.parse().ok()?, value.parse().ok()?))
        }
    }
}

fn obey(
    rt: &(impl Print + AllocGlobal),
    table: &mut Table<u64, u64, IdentityBuild>,
    line: &str,
) -> io::Result<()> {
    let Some((version, words)) = line.split_once(':') else {
        return println!(rt; "not understood: {line}");
    };
    let Ok(version) = version.parse() else {
        return println!(rt; "not understood: {line}");
    };
    let mut ops = Vec::new(rt.alloc());
    for word in words.split_whitespace() {
        let Some(op) = parsed(word) else {
            return println!(rt; "not understood: {line}");
        };
        ops.push(op)?;
    }
    match transact(table, version, ops) {
        Ok(number) => match table.version(number) {
            Some(made) => println!(rt; "version {number}: {made}"),
            None => Ok(()),
        },
        Err(Failure::Nothing) => println!(rt; "a key is absent"),
        Err(Failure::Refused(refusal)) => println!(rt; "refused: {refusal:?}"),
    }
}

fn main(rt: HostRuntime) -> io::Result<()> {
    let mut table = Table::new(rt.alloc(), IdentityBuild {});
    let _ = table.apply(Command::Make(Kind::RedBlackTreeMap), &mut Steps::new());
    for line in rt.lines(rt.alloc()) {
        obey(&rt, &mut table, line?.as_str())?;
    }
    Ok(())
}
