//! A transaction is done as a whole or not at all, and the sum of all balances stays.
//!
//! A bank reads lines: `open ACCOUNT AMOUNT`, and a transaction as `FROM TO AMOUNT, FROM TO AMOUNT, ..`. After each it prints
//! all balances.
#![tactic(auto)]

mod bank;

use bank::{Bank, Refused, Transfer};
use std::alloc::{AllocError, Global};
use std::io;

// An account and an amount.
fn parsed_account(text: &str) -> Option<(u32, u64)> {
    let (account, amount) = text.split_once(' ')?;
    Some((account.parse().ok()?, amount.parse().ok()?))
}

fn parsed_transfer(text: &str) -> Option<Transfer> {
    let (from, rest) = text.trim_start().split_once(' ')?;
    let (to, amount) = parsed_account(rest)?;
    let from = from.parse().ok()?;
    Some(Transfer { from, to, amount })
}

fn parsed_transfers(alloc: Global, line: &str) -> Result<Option<Vec<Transfer>>, AllocError> {
    let mut transfers = Vec::new(alloc);
    for text in line.split(',') {
        let Some(transfer) = parsed_transfer(text) else {
            return Ok(None);
        };
        transfers.push(transfer)?;
    }
    Ok(Some(transfers))
}

fn show(rt: &impl Print, outcome: Result<(), Refused>, bank: &Bank) -> io::Result<()> {
    match outcome {
        Ok(()) => print!(rt; "done:")?,
        Err(refused) => print!(rt; "refused, {refused}:")?,
    }
    for (account, balance) in bank.balances() {
        print!(rt; " {account} has {balance}")?;
    }
    println!(rt; "")
}

fn obey(rt: &(impl Print + AllocGlobal), bank: &mut Bank, line: &str) -> io::Result<()> {
    if let Some(account) = line.strip_prefix("open ") {
        match parsed_account(account) {
            None => println!(rt; "not understood: {line}"),
            Some((account, balance)) => show(rt, bank.open(account, balance), bank),
        }
    } else {
        match parsed_transfers(rt.alloc(), line)? {
            None => println!(rt; "not understood: {line}"),
            Some(transfers) => show(rt, bank.transact(transfers.as_slice()), bank),
        }
    }
}

fn main(rt: HostRuntime) -> io::Result<()> {
    let mut bank = Bank::new(rt.alloc());
    for line in rt.lines(rt.alloc()) {
        obey(&rt, &mut bank, line?.as_str())?;
    }
    Ok(())
}
