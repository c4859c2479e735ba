//! A JSON value changed at a path makes a new version, and every older version stays as it was.
//! Version 0 is `{ }`. `change VERSION PATH JSON` makes a version, `at VERSION PATH` prints what stands at `users/0/name`, say.
#![tactic(auto)]

ghost use Rattle.std.specs.Prelude.{◌≡◌, length, take};

mod json;
mod reader;

use json::{Fault, Json};
use rpds::NestVector;
use std::alloc::Global;

// Makes a version of another, with a value at a path.
fn change(
    versions: &mut NestVector<Json>,
    version: usize,
    path: &[&str],
    new: Json,
) -> Result<(), Fault>
    ensures { take (length versions.old) versions.new ≡ versions.old }
{
    let old = versions.get(version).ok_or(Fault::Absent)?;
    let changed = old.changed(path, new)?;
    Ok(versions.push_back_mut(changed)?)
}

// Obeys a line, and returns what there is to print.
fn obey(alloc: Global, versions: &mut NestVector<Json>, line: &str) -> Result<String, Fault> {
    let mut words = line.split_whitespace();
    let verb = words.next().unwrap_or("");
    let version = words.next().unwrap_or("");
    let version = version.parse().ok().ok_or(Fault::Absent)?;
    let path = words.next().unwrap_or("").split('/');
    let path: Vec<&str> = path.filter(|step| *step != ".").collect(alloc)?;
    if verb == "at" {
        let old = versions.get(version).ok_or(Fault::Absent)?;
        let value = old.at(path.as_slice()).ok_or(Fault::Absent)?;
        let mut text = String::new(alloc);
        value.write(&mut text)?;
        return Ok(text);
    }
    // To let a value go takes a call for each level, so a path has no more levels than a value that is read.
    if path.len() > reader::DEPTH {
        return Err(Fault::TooDeep);
    }
    let new = reader::value(alloc, words)?;
    let number = versions.len();
    change(versions, version, path.as_slice(), new)?;
    Ok(format!(in alloc; "version {number}")?)
}

fn main(rt: HostRuntime) -> std::io::Result<()> {
    let first = Json::Object(NestVector::new(rt.alloc()));
    let mut versions = NestVector::new(rt.alloc()).push_back(first)?;
    for line in rt.lines(rt.alloc()) {
        match obey(rt.alloc(), &mut versions, line?.as_str()) {
            Ok(text) => println!(rt; "{text}")?,
            Err(fault) => println!(rt; "{fault}")?,
        }
    }
    Ok(())
}
