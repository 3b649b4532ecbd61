//! The folders of rows, and the files in one.

use anyhow::{Context, Result};
use std::alloc::Global;
use std::fs;
use std::fs::Files;

/// The names of the folders in a folder, in order.
pub(crate) fn names<R: Files + AllocGlobal + Clone + Drop>(
    rt: &R,
    all: &str,
) -> Result<Vec<String>> {
    let mut names = Vec::new(rt.alloc());
    for entry in fs::read_dir(rt, all).context("the folder can't be read")? {
        let entry = entry?;
        if entry.file_type()?.is_dir() {
            names.push(String::from_str(rt.alloc(), entry.file_name())?)?;
        }
    }
    names.sort()?;
    Ok(names)
}

/// The folder of this name in the folder of all.
#[derive(Clone, Copy)]
pub(crate) struct Folder<'a, R> {
    pub(crate) rt: &'a R,
    pub(crate) all: &'a str,
    pub(crate) name: &'a str,
}

impl<'a, R: Files + AllocGlobal> Folder<'a, R> {
    pub(crate) fn alloc(&self) -> Global {
        self.rt.alloc()
    }

    pub(crate) fn text(&self, file: &str) -> Result<String> {
        let path = self.path(file)?;
        let text = fs::read_to_string(self.rt, path.as_str());
        Ok(text.context(path)?)
    }

    pub(crate) fn bytes(&self, file: &str) -> Result<Vec<u8>> {
        let path = self.path(file)?;
        let bytes = fs::read(self.rt, path.as_str());
        Ok(bytes.context(path)?)
    }

    /// The text of a file, where there is such a file.
    pub(crate) fn text_if_there(&self, file: &str) -> Result<Option<String>> {
        let path = self.path(file)?;
        if fs::exists(self.rt, path.as_str())? {
            Ok(Some(self.text(file)?))
        } else {
            Ok(None)
        }
    }

    /// The bytes of which a file has the hexadecimal digits, where there is such a file.
    pub(crate) fn disk_if_there(&self, file: &str) -> Result<Option<Vec<u8>>> {
        match self.text_if_there(file)? {
            Some(digits) => Ok(Some(hex::decode(self.alloc(), digits.trim())?)),
            None => Ok(None),
        }
    }

    fn path(&self, file: &str) -> Result<String> {
        Ok(format!(in self.alloc(); "{}/{}/{file}", self.all, self.name)?)
    }
}
