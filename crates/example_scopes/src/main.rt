//! Names are lexically scoped, in closures too.
//!
//! The program reads expressions, one a line, and prints what they mean. An expression is a number, `+` and two expressions,
//! `let`, a name and two expressions, of which the second sees the name as the value of the first, `fn`, a name and a body,
//! or `call`, a function and what its name stands for in the body. Any other word is a name.
#![tactic(auto)]

mod expr;
mod scopes;
mod value;

use expr::{DEPTH, Expr, Fault};
use std::alloc::Global;
use std::io;
use std::str::SplitWhitespace;

fn word<'a>(words: &mut SplitWhitespace<'a>) -> Result<&'a str, Fault> {
    words.next().ok_or(Fault::NotUnderstood)
}

// The next word, as a name of an expression.
fn name(alloc: Global, words: &mut SplitWhitespace<'_>) -> Result<String, Fault> {
    Ok(String::from_str(alloc, word(words)?)?)
}

// Reads an expression that goes no deeper than this.
#[cycle(parse)]
fn parse(alloc: Global, words: &mut SplitWhitespace<'_>, depth: usize) -> Result<Box<Expr>, Fault> {
    let depth = depth.checked_sub(1).ok_or(Fault::TooDeep)?;
    let expr = match word(words)? {
        "+" => {
            let (left, right) = parse_two(alloc, words, depth)?;
            Expr::Sum(left, right)
        }
        "let" => {
            let name = name(alloc, words)?;
            let (value, body) = parse_two(alloc, words, depth)?;
            Expr::Let(name, value, body)
        }
        "fn" => Expr::Function(name(alloc, words)?, parse(alloc, words, depth)?),
        "call" => {
            let (function, argument) = parse_two(alloc, words, depth)?;
            Expr::Call(function, argument)
        }
        word => match word.parse() {
            Ok(number) => Expr::Number(number),
            Err(_) => Expr::Name(String::from_str(alloc, word)?),
        },
    };
    Box::new(alloc, expr).ok().ok_or(Fault::NoMemory)
}

// Reads two expressions, one after the other.
#[cycle(parse)]
fn parse_two(
    alloc: Global,
    words: &mut SplitWhitespace<'_>,
    depth: usize,
) -> Result<(Box<Expr>, Box<Expr>), Fault> {
    Ok((parse(alloc, words, depth)?, parse(alloc, words, depth)?))
}

// What a line stands for: a number, or None for a function.
fn answered(alloc: Global, line: &str) -> Result<Option<u64>, Fault> {
    let mut words = line.split_whitespace();
    let expr = parse(alloc, &mut words, DEPTH)?;
    match words.next() {
        None => expr.answer(alloc),
        Some(_) => Err(Fault::NotUnderstood),
    }
}

fn main(rt: HostRuntime) -> io::Result<()> {
    for line in rt.lines(rt.alloc()) {
        match answered(rt.alloc(), line?.as_str()) {
            Ok(Some(number)) => println!(rt; "{number}"),
            Ok(None) => println!(rt; "a function"),
            Err(fault) => println!(rt; "no value: {fault:?}"),
        }?;
    }
    Ok(())
}
