//! In each version of the settings, what is in force on a day is the last change on or before it.
//!
//! Each change makes a new version with a name of its own, and the old ones can still be asked. The program reads lines:
//! `set NEW OLD DAY VALUE` makes the version NEW of OLD, `on NAME DAY` asks what is in force on a day, and
//! `between NAME DAY DAY` lists the changes from one day to another. `merge NEW NAME NAME` makes a version that has the changes
//! of both, and `diff NAME NAME` lists what differs. The version `none` has no change. `save` prints all versions as JSON, and
//! `load JSON` has those of a text, which has no spaces, in their place.
#![tactic(auto)]

mod settings;

use rpds::RedBlackTreeMap;
use rpds::map::red_black_tree_map::MapChange;
use rpds_serde::Saved;
use settings::Settings;
use std::alloc::AllocError;
use std::io;

// The versions by their names, which are looked up by the words of a line.
type Versions = RedBlackTreeMap<String, Settings>;

// Adds a version.
fn add(versions: &mut Versions, name: &str, settings: Settings) -> Result<(), AllocError> {
    versions.insert_mut(String::from_str(*versions.allocator(), name)?, settings)
}

// Makes a version of another one, and tells whether that one is there.
fn set(
    versions: &mut Versions,
    name: &str,
    old: &str,
    day: u32,
    value: u64,
) -> Result<bool, AllocError> {
    let Some(settings) = versions.get(old) else {
        return Ok(false);
    };
    let changed = settings.changed(day, value)?;
    add(versions, name, changed).map(|()| true)
}

// The same of two. Where both have a change on a day, that of the first stays.
fn merge(versions: &mut Versions, name: &str, of: [&str; 2]) -> Result<bool, AllocError> {
    let [first, second] = of;
    let (Some(settings), Some(other)) = (versions.get(first), versions.get(second)) else {
        return Ok(false);
    };
    let merged = settings.merged(other)?;
    add(versions, name, merged).map(|()| true)
}

fn show_day(rt: &impl Print, settings: &Settings, day: u32) -> io::Result<()> {
    match settings.on(day) {
        None => println!(rt; "nothing in force on day {day}"),
        Some((since, value)) => println!(rt; "{value}, since day {since}"),
    }
}

fn show_between(rt: &impl Print, settings: &Settings, from: u32, to: u32) -> io::Result<()> {
    if from > to {
        return println!(rt; "day {from} is after day {to}");
    }
    for (day, value) in settings.between(from, to) {
        println!(rt; "day {day}: {value}")?;
    }
    Ok(())
}

fn show_diff(rt: &impl Print, old: &Settings, new: &Settings) -> io::Result<()> {
    for change in old.diff(new) {
        match change {
            MapChange::Added(day, value) => println!(rt; "day {day}: {value} added")?,
            MapChange::Removed(day, value) => println!(rt; "day {day}: {value} removed")?,
            MapChange::Changed(day, was, is) => println!(rt; "day {day}: {was} became {is}")?,
        }
    }
    Ok(())
}

// Prints the versions as JSON.
fn save(rt: &(impl Print + AllocGlobal), versions: &Versions) -> io::Result<()> {
    match serde_json::to_string(rt.alloc(), &Saved(versions.clone()?)) {
        Ok(text) => println!(rt; "{text}"),
        Err(error) => println!(rt; "not saved: {error}"),
    }
}

// Puts the versions of a JSON text in the place of all versions. An error leaves them.
fn load(rt: &(impl Print + AllocGlobal), versions: &mut Versions, text: &str) -> io::Result<()> {
    let read: Result<Saved<Versions>, serde_json::Error> = serde_json::from_str(rt.alloc(), text);
    match read {
        Ok(saved) => {
            *versions = saved.0;
            println!(rt; "versions: {}", versions.len())
        }
        Err(error) => println!(rt; "not loaded: {error}"),
    }
}

// What a line asks for.
#[derive(Clone, Copy)]
enum Request<'a> {
    Set(&'a str, &'a str, u32, u64),
    On(&'a str, u32),
    Between(&'a str, u32, u32),
    Merge(&'a str, &'a str, &'a str),
    Diff(&'a str, &'a str),
    Save,
    Load(&'a str),
    NotNumbers,
    NotUnderstood,
}

fn parsed<'a>(words: &[&'a str]) -> Request<'a> {
    match words {
        ["set", new, old, day, value] => match (day.parse(), value.parse()) {
            (Ok(day), Ok(value)) => Request::Set(*new, *old, day, value),
            _ => Request::NotNumbers,
        },
        ["on", name, day] => match day.parse() {
            Ok(day) => Request::On(*name, day),
            Err(_) => Request::NotNumbers,
        },
        ["between", name, from, to] => match (from.parse(), to.parse()) {
            (Ok(from), Ok(to)) => Request::Between(*name, from, to),
            _ => Request::NotNumbers,
        },
        ["merge", new, first, second] => Request::Merge(*new, *first, *second),
        ["diff", old, new] => Request::Diff(*old, *new),
        ["save"] => Request::Save,
        ["load", text] => Request::Load(*text),
        _ => Request::NotUnderstood,
    }
}

fn show_made(rt: &impl Print, name: &str, is_made: bool) -> io::Result<()> {
    if is_made {
        println!(rt; "version {name}")
    } else {
        println!(rt; "no version")
    }
}

fn obey(rt: &(impl Print + AllocGlobal), versions: &mut Versions, line: &str) -> io::Result<()> {
    let request = {
        let words: Vec<&str> = line.split(' ').collect(rt.alloc())?;
        parsed(words.as_slice())
    };
    match request {
        Request::Set(name, old, day, value) => {
            show_made(rt, name, set(versions, name, old, day, value)?)
        }
        Request::On(name, day) => match versions.get(name) {
            None => println!(rt; "no version {name}"),
            Some(settings) => show_day(rt, settings, day),
        },
        Request::Between(name, from, to) => match versions.get(name) {
            None => println!(rt; "no version {name}"),
            Some(settings) => show_between(rt, settings, from, to),
        },
        Request::Merge(name, first, second) => {
            show_made(rt, name, merge(versions, name, [first, second])?)
        }
        Request::Diff(old, new) => match (versions.get(old), versions.get(new)) {
            (Some(old), Some(new)) => show_diff(rt, old, new),
            _ => println!(rt; "no version"),
        },
        Request::Save => save(rt, versions),
        Request::Load(text) => load(rt, versions, text),
        Request::NotNumbers => println!(rt; "not numbers: {line}"),
        Request::NotUnderstood => println!(rt; "not understood: {line}"),
    }
}

fn main(rt: HostRuntime) -> io::Result<()> {
    let mut versions = RedBlackTreeMap::new(rt.alloc());
    add(&mut versions, "none", Settings::new(rt.alloc()))?;
    for line in rt.lines(rt.alloc()) {
        obey(&rt, &mut versions, line?.as_str())?;
    }
    Ok(())
}
