//! Undo after a write gives back the document of before.
//!
//! A line editor whose every step can be undone, on branches that share what they have in common. It reads `append TEXT`,
//! `insert LINE TEXT`, `replace LINE TEXT`, `delete LINE`, `join LINE` (with the next one), `cut LINE WORD` (around the first
//! such word), `move FROM TO LINE` (the lines from FROM up to TO, to before LINE of the others), `swap WORD OTHER` (in all
//! lines), `undo`, `redo`, `branch` (a copy of this branch, to go on with), `switch BRANCH` and `show`. Lines count from 0.
#![tactic(auto)]

ghost use Rattle.std.specs.Prelude.{◌≡◌, OnErr, OnOk};
ghost use Rattle.rpds.specs.HistoryContents.{undone};

use rpds::{History, Sequence};
use std::alloc::{AllocError, Global};
use std::io;

type Document = Sequence<String>; // its lines

type Changed = Result<Option<Document>, AllocError>; // None where there is no such line

fn show(rt: &impl Print, branch: usize, document: &Document) -> io::Result<()> {
    println!(rt; "branch {branch}:")?;
    let mut lines = document.iter();
    lines.try_for_each(|line| println!(rt; "  {line}"))
}

// Makes one line of a line and the next, with a space between them.
fn join(alloc: Global, document: &Document, index: usize) -> Changed {
    let (Some(line), Some(others)) = (document.get(index), document.remove(index)?) else {
        return Ok(None);
    };
    match others.get(index) {
        None => Ok(None),
        Some(next) => others.set(index, format!(in alloc; "{line} {next}")?),
    }
}

// Makes two lines of a line: what stands before the first such word, and what stands behind it.
fn cut(alloc: Global, document: &Document, index: usize, word: &str) -> Changed {
    let Some((before, behind)) = document.get(index).and_then(|line| line.split_once(word)) else {
        return Ok(None);
    };
    match document.set(index, String::from_str(alloc, behind)?)? {
        None => Ok(None),
        Some(others) => others.insert(index, String::from_str(alloc, before)?),
    }
}

// Puts the lines from one up to another before a line of those that are left.
fn move_lines(document: &Document, from: usize, to: usize, line: usize) -> Changed {
    let lines = document.slice(from..to)?;
    let others = document.without_range(from..to)?;
    Ok(Some(others.splice(line..line, &lines)?))
}

// A line with another word in the place of each such word.
fn swapped(alloc: Global, line: &str, word: &str, other: &str) -> Result<String, AllocError> {
    let mut text = String::new(alloc);
    for (count, part) in line.split(word).enumerate() {
        if count > 0 {
            text.push_str(other)?;
        }
        text.push_str(part)?;
    }
    Ok(text)
}

fn swap(alloc: Global, document: &Document, word: &str, other: &str) -> Changed {
    let mut changed = document.clone()?;
    for (index, line) in document.iter().enumerate() {
        if line.contains(word) {
            changed.set_mut(index, swapped(alloc, line, word, other)?)?;
        }
    }
    Ok(Some(changed))
}

// What a command makes of the document. `rest` has the number of a line, and what follows it.
fn changed(alloc: Global, document: &Document, command: &str, rest: &str) -> Changed {
    let (first, text) = rest.split_once(' ').unwrap_or((rest, ""));
    let (second, third) = text.split_once(' ').unwrap_or((text, ""));
    match (command, first.parse::<usize>()) {
        ("append", _) => document.insert(document.len(), String::from_str(alloc, rest)?),
        ("swap", _) => swap(alloc, document, first, text),
        ("insert", Ok(index)) => document.insert(index, String::from_str(alloc, text)?),
        ("replace", Ok(index)) => document.set(index, String::from_str(alloc, text)?),
        ("delete", Ok(index)) => document.remove(index),
        ("join", Ok(index)) => join(alloc, document, index),
        ("cut", Ok(index)) => cut(alloc, document, index, text),
        ("move", Ok(from)) => match (second.parse(), third.parse()) {
            (Ok(to), Ok(line)) => move_lines(document, from, to, line),
            _ => Ok(None),
        },
        _ => Ok(None),
    }
}

// Makes the document the present one. An undo gives back the one of before.
fn write(history: &mut History<Document>, document: Document) -> Result<(), AllocError>
    ensures present { OnOk result (history.new.present ≡ document) }
    ensures undo { OnOk result ((undone history.new).present ≡ history.old.present) }
    ensures err { OnErr result (history.new ≡ history.old) }
{
    history.record(document)
}

fn obey(
    rt: &(impl Print + AllocGlobal),
    branches: &mut Vec<History<Document>>,
    at: &mut usize,
    line: &str,
) -> io::Result<()> {
    let count = branches.len();
    let Some(history) = branches.get_mut(*at) else {
        return println!(rt; "no branch {at}");
    };
    let (command, rest) = line.split_once(' ').unwrap_or((line, ""));
    match command {
        "undo" if !history.undo()? => println!(rt; "nothing to undo"),
        "redo" if !history.redo()? => println!(rt; "nothing to redo"),
        "undo" | "redo" => Ok(()),
        "branch" => {
            let copy = history.fork()?;
            branches.push(copy)?;
            *at = count;
            Ok(())
        }
        "switch" => match rest.parse() {
            Ok(branch) if branch < count => {
                *at = branch;
                Ok(())
            }
            _ => println!(rt; "no branch {rest}"),
        },
        "show" => show(rt, *at, history.present()),
        _ => match changed(rt.alloc(), history.present(), command, rest)? {
            None => println!(rt; "not done: {line}"),
            Some(document) => Ok(write(history, document)?),
        },
    }
}

fn main(rt: HostRuntime) -> io::Result<()> {
    let mut branches = Vec::new(rt.alloc());
    branches.push(History::new(rt.alloc(), Document::new(rt.alloc()))?)?;
    let mut at = 0;
    for line in rt.lines(rt.alloc()) {
        obey(&rt, &mut branches, &mut at, line?.as_str())?;
    }
    Ok(())
}
