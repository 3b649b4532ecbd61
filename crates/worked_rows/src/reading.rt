//! The rows that a folder's files make.

use crate::folder::Folder;
use crate::row::{Program, Row, Wanted};
use anyhow::{Context, Result, bail};
use std::alloc::Global;
use std::fs::Files;

/// The rows of a folder.
pub(crate) fn rows<R: Files + AllocGlobal>(folder: &Folder<R>) -> Result<Vec<Row>> {
    if let Some(lines) = folder.text_if_there("words")? {
        return rows_of_words(folder, lines.as_str());
    }
    if let Some(lines) = folder.text_if_there("damages")? {
        return rows_of_damages(folder, lines.as_str());
    }
    if let Some(lines) = folder.text_if_there("changes")? {
        return rows_of_changes(folder, lines.as_str());
    }
    Ok(vec![in folder.alloc(); row(folder)?]?)
}

/// The one row that the files make.
fn row<R: Files + AllocGlobal>(folder: &Folder<R>) -> Result<Row> {
    let alloc = folder.alloc();
    let args = folder.text("args")?;
    Ok(Row {
        name: String::from_str(alloc, folder.name)?,
        program: program(folder)?,
        words: words_of_lines(alloc, args.as_str())?,
        script: script(folder)?,
        before: before(folder)?,
        list: folder.disk_if_there("files/before-notary")?,
        wanted: Wanted {
            status: status(folder.text("status")?.as_str())?,
            output: folder.bytes("stdout")?,
            disks: [
                folder.disk_if_there("files/a")?,
                folder.disk_if_there("files/b")?,
            ],
            list: folder.disk_if_there("files/notary")?,
        },
    })
}

// What stands on the two disks before the run.
fn before<R: Files + AllocGlobal>(folder: &Folder<R>) -> Result<[Vec<u8>; 2]> {
    let alloc = folder.alloc();
    let a = folder.disk_if_there("files/before-a")?;
    let b = folder.disk_if_there("files/before-b")?;
    Ok([a.unwrap_or(Vec::new(alloc)), b.unwrap_or(Vec::new(alloc))])
}

/// A row for each line, which has its words. Its disks stay empty.
fn rows_of_words<R: Files + AllocGlobal>(folder: &Folder<R>, lines: &str) -> Result<Vec<Row>> {
    let alloc = folder.alloc();
    let mut rows = Vec::new(alloc);
    for line in lines.lines() {
        rows.push(Row {
            name: format!(in alloc; "{}: {line:?}", folder.name)?,
            program: program(folder)?,
            words: words_between(alloc, line, '\t')?,
            script: script(folder)?,
            before: [Vec::new(alloc), Vec::new(alloc)],
            list: None,
            wanted: Wanted {
                status: status(folder.text("status")?.as_str())?,
                output: folder.bytes("stdout")?,
                disks: [Some(Vec::new(alloc)), Some(Vec::new(alloc))],
                list: None,
            },
        })?;
    }
    Ok(rows)
}

/// A row for each line, which has what stands on the first disk, and how the run ends.
fn rows_of_damages<R: Files + AllocGlobal>(folder: &Folder<R>, lines: &str) -> Result<Vec<Row>> {
    let mut rows = Vec::new(folder.alloc());
    for line in lines.lines() {
        rows.push(row_of_damage(folder, line)?)?;
    }
    Ok(rows)
}

fn row_of_damage<R: Files + AllocGlobal>(folder: &Folder<R>, line: &str) -> Result<Row> {
    let alloc = folder.alloc();
    let args = folder.text("args")?;
    let mut fields = line.splitn(3, ' ');
    let digits = fields.next().context("no digits")?;
    let ending = fields.next().context("no status")?;
    let told = fields.next().context("no line")?;
    let file = match digits {
        "-" => Vec::new(alloc),
        _ => hex::decode(alloc, digits)?,
    };
    Ok(Row {
        name: format!(in alloc; "{}: {line}", folder.name)?,
        program: program(folder)?,
        words: words_of_lines(alloc, args.as_str())?,
        script: script(folder)?,
        before: [file.clone()?, Vec::new(alloc)],
        list: None,
        wanted: Wanted {
            status: status(ending)?,
            output: format!(in alloc; "{told}\n")?.into_bytes(),
            disks: [Some(file), Some(Vec::new(alloc))],
            list: None,
        },
    })
}

/// A row for each line, which has its words, what becomes of the input that the folder holds, and how the run ends.
fn rows_of_changes<R: Files + AllocGlobal>(folder: &Folder<R>, lines: &str) -> Result<Vec<Row>> {
    let input = folder.disk_if_there("input")?.context("no input")?;
    let mut rows = Vec::new(folder.alloc());
    for line in lines.lines() {
        rows.push(row_of_change(folder, &input, line)?)?;
    }
    Ok(rows)
}

fn row_of_change<R: Files + AllocGlobal>(
    folder: &Folder<R>,
    input: &[u8],
    line: &str,
) -> Result<Row> {
    let alloc = folder.alloc();
    let mut fields = line.splitn(4, '\t');
    let words = fields.next().context("no words")?;
    let change = fields.next().context("no change")?;
    let ending = fields.next().context("no status")?;
    let told = fields.next().context("no line")?;
    Ok(Row {
        name: format!(in alloc; "{}: {line}", folder.name)?,
        program: program(folder)?,
        words: words_between(alloc, words, ' ')?,
        script: changed(alloc, input, change)?,
        before: before(folder)?,
        list: folder.disk_if_there("files/before-notary")?,
        wanted: Wanted {
            status: status(ending)?,
            output: format!(in alloc; "{told}\n")?.into_bytes(),
            disks: [None, None],
            list: None,
        },
    })
}

// What becomes of an input by a change.
fn changed(alloc: Global, input: &[u8], change: &str) -> Result<Vec<u8>> {
    let mut bytes = input.to_vec(alloc)?;
    let mut fields = change.split(' ');
    match fields.next().context("no change")? {
        "-" => {}
        "cut" => bytes.truncate(fields.next().context("no length")?.parse::<usize>()?),
        "byte" => {
            let at = fields.next().context("no place")?.parse::<usize>()?;
            let value = fields.next().context("no value")?.parse::<u8>()?;
            *bytes.get_mut(at).context("no such byte")? = value;
        }
        "more" => bytes.push(0)?,
        other => bail!("no change is {other}"),
    }
    Ok(bytes)
}

fn program<R: Files + AllocGlobal>(folder: &Folder<R>) -> Result<Program> {
    let name = folder.text("program")?;
    Program::of(name.as_str().trim()).context("no such program")
}

fn status(text: &str) -> Result<u8> {
    text.trim().parse::<u8>().context("no status")
}

// The words of which each has a line.
fn words_of_lines(alloc: Global, lines: &str) -> Result<Vec<String>> {
    let mut words = Vec::new(alloc);
    for word in lines.lines() {
        words.push(String::from_str(alloc, word)?)?;
    }
    Ok(words)
}

// The words of a line, with this character between them.
fn words_between(alloc: Global, line: &str, between: char) -> Result<Vec<String>> {
    let mut words = Vec::new(alloc);
    for word in line.split(between) {
        words.push(String::from_str(alloc, word)?)?;
    }
    Ok(words)
}

/// The script, whose lines may be told by how often they stand.
fn script<R: Files + AllocGlobal>(folder: &Folder<R>) -> Result<Vec<u8>> {
    match folder.text_if_there("stdin.repeated")? {
        Some(lines) => repeated(folder.alloc(), lines.as_str()),
        None => folder.bytes("stdin"),
    }
}

// The lines for which these stand.
fn repeated(alloc: Global, lines: &str) -> Result<Vec<u8>> {
    let mut script = Vec::new(alloc);
    for line in lines.lines() {
        let mut fields = line.splitn(3, ' ');
        let count = fields.next().context("no count")?.parse::<u64>()?;
        let spaces = fields.next().context("no spaces")?.parse::<usize>()?;
        let front = fields.next().context("no line")?;
        for _ in 0..count {
            script.extend_from_slice(front.as_bytes())?;
            let len = script.len().saturating_add(spaces);
            script.resize(len, b' ')?;
            script.push(b'\n')?;
        }
    }
    Ok(script)
}
