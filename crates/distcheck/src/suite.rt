//! The rows: they are read from the files of a folder, in the order of their names.

use crate::command::CheckOrder;
use crate::fault::Fault;
use dist_conformance::{RowError, Section, SuiteNames, read_section};
use dist_names::escape;
use std::alloc::{AllocError, Global};
use std::io::{self, ErrorKind};
use std::path::AsPath;
use std::{env, fs};

/// A file of rows.
#[derive(Drop)]
pub struct SuiteFile {
    /// Its text.
    pub text: String,
    /// What it has.
    pub section: Section,
}

// The folder of the rows beside that of the program: PREFIX/bin/distcheck has them in PREFIX/share/distcheck.
const BESIDE: &str = "share/distcheck";

// The folder of the rows where a package puts them. It counts where the system doesn't say where the program stands: without `/proc`.
const INSTALLED: &str = "/usr/share/distcheck";

// How the name of a file of rows ends.
const ENDING: &str = ".rows";

// The refusal of a folder or a file that could not be read.
fn unread_fault(alloc: Global, path: &str) -> Result<Fault, AllocError> {
    Ok(Fault::RowsUnread(escape(alloc, path.as_bytes())?))
}

// The folder that has the folder of a file.
fn prefix_of(file: &str) -> Option<&str> {
    let (folder, _) = file.rsplit_once('/')?;
    let (prefix, _) = folder.rsplit_once('/')?;
    Some(prefix)
}

// The folder of the rows: that of the command line, or that beside the program's, or else that of a package.
fn folder_of(rt: &HostRuntime, order: &CheckOrder<'_>) -> Result<String, Fault> {
    let alloc = rt.alloc();
    if let Some(folder) = order.rows {
        return Ok(folder.to_owned(alloc)?);
    }
    let Ok(program) = env::current_exe(rt) else {
        return Ok(INSTALLED.to_owned(alloc)?);
    };
    match prefix_of(program.path_text()) {
        Some(prefix) => Ok(format!(in alloc; "{prefix}/{BESIDE}")?),
        None => Err(unread_fault(alloc, BESIDE)?),
    }
}

// The names of the files of rows in this folder, in their order.
fn names_in(rt: &HostRuntime, folder: &str) -> io::Result<Vec<String>> {
    let alloc = rt.alloc();
    let mut names = Vec::new(alloc);
    for entry in fs::read_dir(rt, folder)? {
        let entry = entry?;
        if entry.file_name().ends_with(ENDING) {
            names.push(entry.file_name().to_owned(alloc)?)?;
        }
    }
    names.sort()?;
    Ok(names)
}

// The text of a file. A pipe or a device is none, and not waited for.
fn read_text(rt: &HostRuntime, path: &str) -> io::Result<String> {
    if fs::metadata(rt, path)?.is_file() {
        fs::read_to_string(rt, path)
    } else {
        Err(ErrorKind::InvalidInput.into())
    }
}

fn read_file(
    rt: &HostRuntime,
    folder: &str,
    name: &str,
    names: &SuiteNames<'_>,
) -> Result<SuiteFile, Fault> {
    let alloc = rt.alloc();
    let path = format!(in alloc; "{folder}/{name}")?;
    let Ok(text) = read_text(rt, &path) else {
        return Err(unread_fault(alloc, &path)?);
    };
    match read_section(alloc, text.as_bytes(), names) {
        Ok(section) => Ok(SuiteFile { text, section }),
        Err(RowError::NoMemory) => Err(Fault::NoMemory),
        Err(error) => {
            let name = escape(alloc, path.as_bytes())?;
            Err(Fault::BadWord(format!(in alloc; "{name}: {error}")?))
        }
    }
}

/// All files of rows of the folder, in the order of their names. There is at least one.
pub fn read_suite(
    rt: &HostRuntime,
    order: &CheckOrder<'_>,
    names: &SuiteNames<'_>,
) -> Result<Vec<SuiteFile>, Fault> {
    let alloc = rt.alloc();
    let folder = folder_of(rt, order)?;
    let mut suite = Vec::new(alloc);
    for file in &names_in(rt, &folder).unwrap_or(Vec::new(alloc)) {
        suite.push(read_file(rt, &folder, file, names)?)?;
    }
    if suite.is_empty() {
        return Err(unread_fault(alloc, &folder)?);
    }
    Ok(suite)
}
