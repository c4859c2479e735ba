//! Pushing a list onto another list, or onto itself, leaves every older version as it was.
//!
//! A list holds numbers and lists. The checker takes no recursive type that goes through the `List` of the library, so the
//! type of the lists is the program's own, and a `Vector` holds the versions. The program reads lines: `push VERSION NUMBER`
//! and `nest VERSION VERSION` make a version of the first one, with a number or the second one before its items, and
//! `has VERSION NUMBER` asks whether a number stands in one, however deep. Version 0 is empty.
#![tactic(auto)]

ghost use Rattle.std.specs.Prelude.{◌≡◌, ◌∷◌, Some, length, option_map, slice_get, take, IfOk, IfSome};
ghost use Rattle.example_nested.specs.Holds.{items_of};

mod json;

use json::{Items, Json};
use rpds::Vector;
use std::alloc::{AllocError, Global};
use std::io;

// Makes a version of another, with the item before its own, and returns its number. Without that version it makes none.
fn pushed(
    alloc: Global,
    versions: &mut Vector<Items>,
    version: usize,
    item: Json,
) -> Result<Option<usize>, AllocError>
    ensures stay { take (length versions.old.items) versions.new.items ≡ versions.old.items }
    ensures made { IfOk result (λ made. IfSome made (λ number. option_map items_of (slice_get versions.new.items number)
        ≡ option_map (λ items. item ∷ items_of items) (slice_get versions.old.items version))) }
{
    let Some(items) = versions.get(version) else {
        return Ok(None);
    };
    let more = items.push(alloc, item)?;
    let number = versions.len();
    versions.push_back_mut(more)?;
    Ok(Some(number))
}

// The same, where the item is a version.
fn nested(
    alloc: Global,
    versions: &mut Vector<Items>,
    outer: usize,
    inner: usize,
) -> Result<Option<usize>, AllocError>
    ensures stay { take (length versions.old.items) versions.new.items ≡ versions.old.items }
{
    let Some(items) = versions.get(inner) else {
        return Ok(None);
    };
    let item = Json::Array(items.share()?);
    pushed(alloc, versions, outer, item)
}

fn tell(rt: &impl Print, made: Option<usize>) -> io::Result<()> {
    match made {
        None => println!(rt; "no such version"),
        Some(number) => println!(rt; "version {number}"),
    }
}

fn obey(
    rt: &(impl Print + AllocGlobal),
    versions: &mut Vector<Items>,
    line: &str,
) -> io::Result<()> {
    let mut words = line.split(' ');
    let (Some(verb), Some(version), Some(number), None) = (
        words.next(),
        words.next(),
        words.next(),
        words.next(),
    ) else {
        return println!(rt; "not understood: {line}");
    };
    let (Ok(version), Ok(number)) = (version.parse::<usize>(), number.parse::<u64>()) else {
        return println!(rt; "not numbers: {line}");
    };
    match verb {
        "push" => tell(
            rt,
            pushed(rt.alloc(), versions, version, Json::Number(number))?,
        ),
        "nest" => tell(rt, nested(rt.alloc(), versions, version, number as usize)?),
        "has" => match versions.get(version) {
            None => println!(rt; "no such version"),
            Some(items) => println!(rt; "{}", items.holds(number)),
        },
        _ => println!(rt; "not understood: {line}"),
    }
}

fn main(rt: HostRuntime) -> io::Result<()> {
    let mut versions = Vector::new(rt.alloc());
    versions.push_back_mut(Items::End)?;
    for line in rt.lines(rt.alloc()) {
        obey(&rt, &mut versions, line?.as_str())?;
    }
    Ok(())
}
