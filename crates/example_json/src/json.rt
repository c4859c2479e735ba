//! JSON values, which share what a change leaves as it was.
use rpds::NestVector;
use std::alloc::AllocError;
use thiserror::Error;

/// A number, a text, an array of values or an object of named values.
#[derive(Drop)]
pub enum Json {
    Number(u64),
    Text(String),
    Array(NestVector<Json>),
    Object(NestVector<(String, Json)>),
}

/// Why there is no value.
#[derive(Debug, Drop, Error)]
pub enum Fault {
    #[error("no such value")]
    Absent,
    #[error("nested too deep")]
    TooDeep,
    #[error("no memory")]
    NoMemory(#[from(alloc)] AllocError),
}

// The place of a name among fields.
fn place_of(fields: &NestVector<(String, Json)>, name: &str) -> Option<usize> {
    for place in 0..fields.len() {
        if fields.get(place)?.0.as_str() == name {
            return Some(place);
        }
    }
    None
}

impl Json {
    /// The value at a path: the index of an item for each array on the way, the name of a field for each object.
    pub fn at(&self, path: &[&str]) -> Option<&Json> {
        match (self, path) {
            (_, []) => Some(self),
            (Json::Array(items), [step, rest @ ..]) => items.get(step.parse().ok()?)?.at(rest),
            (Json::Object(fields), [step, rest @ ..]) => {
                fields.get(place_of(fields, step)?)?.1.at(rest)
            }
            _ => None,
        }
    }

    /// The value with another one at a path.
    pub fn changed(&self, path: &[&str], new: Json) -> Result<Json, Fault> {
        match (self, path) {
            (_, []) => Ok(new),
            (Json::Array(items), [step, rest @ ..]) => {
                let place = step.parse().ok().ok_or(Fault::Absent)?;
                let item = items.get(place).ok_or(Fault::Absent)?.changed(rest, new)?;
                Ok(Json::Array(items.set(place, item)?.ok_or(Fault::Absent)?))
            }
            (Json::Object(fields), [step, rest @ ..]) => {
                let place = place_of(fields, step).ok_or(Fault::Absent)?;
                let (name, value) = fields.get(place).ok_or(Fault::Absent)?;
                let field = (name.clone()?, value.changed(rest, new)?);
                Ok(Json::Object(fields.set(place, field)?.ok_or(Fault::Absent)?))
            }
            _ => Err(Fault::Absent),
        }
    }

    /// Writes it, with a space between the words.
    pub fn write(&self, text: &mut String) -> Result<(), AllocError> {
        match self {
            Json::Number(number) => write!(text, "{number}"),
            Json::Text(own) => write!(text, "\"{own}\""),
            Json::Array(items) => {
                text.push('[')?;
                for place in 0..items.len() {
                    text.push_str(if place == 0 { " " } else { " , " })?;
                    if let Some(item) = items.get(place) {
                        item.write(text)?;
                    }
                }
                text.push_str(" ]")
            }
            Json::Object(fields) => {
                text.push('{')?;
                for place in 0..fields.len() {
                    text.push_str(if place == 0 { " " } else { " , " })?;
                    if let Some((name, value)) = fields.get(place) {
                        write!(text, "\"{name}\" : ")?;
                        value.write(text)?;
                    }
                }
                text.push_str(" }")
            }
        }
    }
}
