// What a line of the data asks for.
use anyhow::Result;
use serde_json::Value;
use std::alloc::Global;

/// What is asked, the text that it is asked of, and an offset in the text.
#[derive(Drop)]
pub(crate) struct Asked {
    pub what: String,
    pub text: Vec<u8>,
    pub offset: usize,
}

/// The text of a member, which is empty where there is none.
fn part<'v>(line: &'v Value, name: &str) -> &'v str {
    line.get(name).and_then(Value::as_str).unwrap_or("")
}

/// The number of a member, which is 0 where there is none.
fn number(line: &Value, name: &str) -> u64 {
    line.get(name).and_then(Value::as_u64).unwrap_or(0)
}

/// The text of a line.
fn text_of(alloc: Global, line: &Value) -> Result<Vec<u8>> {
    let mut text = hex::decode(alloc, part(line, "hex"))?;
    text.extend_from_slice(part(line, "text").as_bytes())?;
    for _ in 0..number(line, "times") {
        text.extend_from_slice(part(line, "again").as_bytes())?;
    }
    text.extend_from_slice(part(line, "end").as_bytes())?;
    Ok(text)
}

impl Asked {
    /// What a line asks for: an object with `ask` and a `text`, which may go on with `times` copies of `again` and then with `end`. A text
    /// that is no UTF-8 stands in `hex`, in hexadecimal. A `note` is for who reads the data.
    pub fn of(alloc: Global, line: &str) -> Result<Asked> {
        let line = Value::from_str(alloc, line)?;
        Ok(Asked {
            what: String::from_str(alloc, part(&line, "ask"))?,
            text: text_of(alloc, &line)?,
            offset: number(&line, "offset") as usize,
        })
    }
}
