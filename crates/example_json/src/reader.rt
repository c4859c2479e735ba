//! Reads JSON whose words stand apart, as `[ 1 , "two" ]`. Commas and colons may be left out.
use crate::json::{Fault, Json};
use rpds::NestVector;
use std::alloc::Global;

/// How many lists may be open at a time.
pub const DEPTH: usize = 64;

// A list whose end isn't read yet. That of an object may have a name that waits for its value.
#[derive(Drop)]
enum Open {
    Array(NestVector<Json>),
    Object(NestVector<(String, Json)>, Option<String>),
}

// Puts a value behind the last of the list, or keeps it as the name of the next.
fn put(list: &mut Open, value: Json) -> Result<(), Fault> {
    match list {
        Open::Array(items) => items.push_back_mut(value)?,
        Open::Object(fields, name) => match (name.take(), value) {
            (Some(own), value) => fields.push_back_mut((own, value))?,
            (None, Json::Text(text)) => *name = Some(text),
            _ => return Err(Fault::Absent),
        },
    }
    Ok(())
}

// The list that ends here, a number, or what stands between quotes.
fn ended(alloc: Global, open: &mut Vec<Open>, word: &str) -> Result<Json, Fault> {
    match word {
        "]" | "}" => match open.pop() {
            Some(Open::Array(items)) if word == "]" => Ok(Json::Array(items)),
            Some(Open::Object(fields, None)) if word == "}" => Ok(Json::Object(fields)),
            _ => Err(Fault::Absent),
        },
        _ => match word.parse() {
            Ok(number) => Ok(Json::Number(number)),
            Err(_) => {
                let text = word.strip_prefix('"').ok_or(Fault::Absent)?;
                let text = text.strip_suffix('"').ok_or(Fault::Absent)?;
                Ok(Json::Text(String::from_str(alloc, text)?))
            }
        },
    }
}

/// The value that begins with the next word.
pub fn value(alloc: Global, words: std::str::SplitWhitespace<'_>) -> Result<Json, Fault> {
    let mut open = Vec::new(alloc);
    for word in words {
        match word {
            "," | ":" => {}
            "[" | "{" if open.len() == DEPTH => return Err(Fault::TooDeep),
            "[" => open.push(Open::Array(NestVector::new(alloc)))?,
            "{" => open.push(Open::Object(NestVector::new(alloc), None))?,
            _ => {
                let value = ended(alloc, &mut open, word)?;
                match open.last_mut() {
                    None => return Ok(value),
                    Some(list) => put(list, value)?,
                }
            }
        }
    }
    Err(Fault::Absent)
}
