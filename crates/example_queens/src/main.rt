//! No two queens of a board attack each other, and where the program finds no such board there is none.
//!
//! The program reads sizes of boards, one a line, and prints for each a board with a queen in every row, or that there is
//! none. The search goes on from a board in many ways: each way is a board of its own, which shares what it can with the one
//! that it goes on from.
#![tactic(auto)]

mod board;
mod search;

use board::MOST_ROWS;
use rpds::List;
use search::solved;
use std::io;

fn show(rt: &impl Print, queens: &List<u32>, size: u32) -> io::Result<()> {
    println!(rt; "{size} queens:")?;
    for queen in queens.iter() {
        for column in 0..size {
            print!(rt; "{}", if column == *queen { "Q" } else { "." })?;
        }
        println!(rt; "")?;
    }
    Ok(())
}

fn answer(rt: &(impl Print + AllocGlobal), line: &str) -> io::Result<()> {
    match line.parse() {
        Ok(size) if size <= MOST_ROWS => match solved(rt.alloc(), size)? {
            None => println!(rt; "{size} queens: no board"),
            Some(queens) => show(rt, &queens, size),
        },
        _ => println!(rt; "not a size: {line}"),
    }
}

fn main(rt: HostRuntime) -> io::Result<()> {
    for line in rt.lines(rt.alloc()) {
        answer(&rt, line?.as_str())?;
    }
    Ok(())
}
