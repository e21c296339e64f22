//! Commands on files.
use cap_codec::{Contents, read_blob};
use cap_command_line::{Asked, Options};
use cap_console::{
    Dumps, Loaded, TableColumns, named_json, named_sql, named_text, other_width, table_columns,
    with_sizes,
};
use cap_files::{
    CreatedTable, FileBlob, FileForm, around, file_blob, file_text, load_lines, summary,
};
use cap_run::{
    BlobListFault, Combination, Conversion, Encoding, Form, RunFault, combine_blobs, convert_blob,
    show_blob,
};
use cap_value::Fault;
use std::alloc::{AllocError, Global};
use std::fs::{File, Files};
use std::io::{Read, Write};
use std::{fs, io};

// Why a command on files fails.
#[derive(Drop)]
pub enum FileFault {
    // A file is refused, or cannot be read or written: a line that names it.
    Refused(String),
    // The words for an option are refused: a line that names them.
    Misused(String),
    // Standard output cannot be written, or memory ran out.
    Failed,
}

impl From<AllocError> for FileFault {
    fn from(_error: AllocError) -> FileFault {
        FileFault::Failed
    }
}

// A file's name, and why it is refused.
fn refused(alloc: Global, name: &str, why: &str) -> FileFault {
    match format!(in alloc; "{name}: {why}") {
        Ok(line) => FileFault::Refused(line),
        Err(_) => FileFault::Failed,
    }
}

fn refused_call(alloc: Global, name: &str, error: &io::Error) -> FileFault {
    match format!(in alloc; "{error}") {
        Ok(why) => refused(alloc, name, why.as_str()),
        Err(_) => FileFault::Failed,
    }
}

fn refused_run(alloc: Global, name: &str, fault: RunFault) -> FileFault {
    if fault.status() != 1 {
        return FileFault::Failed;
    }
    match format!(in alloc; "{fault}") {
        Ok(why) => refused(alloc, name, why.as_str()),
        Err(_) => FileFault::Failed,
    }
}

// The bytes of a file, or of standard input.
fn read<R: Files + Input + AllocGlobal>(rt: &R, name: &str) -> Result<Vec<u8>, FileFault> {
    let alloc = rt.alloc();
    let found = if name == "-" {
        let mut bytes = Vec::new(alloc);
        rt.reader().read_to_end(&mut bytes).map(|_| bytes)
    } else {
        fs::read(rt, name)
    };
    found.map_err(|error| refused_call(alloc, name, &error))
}

// The blob in a file.
fn blob_in<R: Files + Input + AllocGlobal>(
    rt: &R,
    name: &str,
) -> Result<FileBlob<Global>, FileFault> {
    blob_of(rt.alloc(), name, read(rt, name)?)
}

fn blob_of(alloc: Global, name: &str, bytes: Vec<u8>) -> Result<FileBlob<Global>, FileFault> {
    match file_blob(alloc, bytes) {
        Ok(blob) => Ok(blob),
        Err(Fault::OutOfMemory) => Err(FileFault::Failed),
        Err(Fault::Refused(fault)) => {
            let why = format!(in alloc; "{fault}")?;
            Err(refused(alloc, name, why.as_str()))
        }
    }
}

fn blobs_in<R: Files + Input + AllocGlobal>(
    rt: &R,
    names: &[String],
) -> Result<Vec<FileBlob<Global>>, FileFault> {
    let mut blobs = Vec::new(rt.alloc());
    for name in names {
        if blobs.push(blob_in(rt, name.as_str())?).is_err() {
            return Err(FileFault::Failed);
        }
    }
    Ok(blobs)
}

// The contents of a blob. Where it is malformed, the fault is shown with the bytes around it.
fn contents_of(alloc: Global, name: &str, bytes: &[u8]) -> Result<Contents<Global>, FileFault> {
    match read_blob(alloc, bytes) {
        Ok(contents) => Ok(contents),
        Err(Fault::OutOfMemory) => Err(FileFault::Failed),
        Err(Fault::Refused(fault)) => {
            let place = fault.at.min(bytes.len());
            let bytes = around(alloc, place, bytes)?;
            let why = format!(in alloc; "fault {fault}:{bytes}")?;
            Err(refused(alloc, name, why.as_str()))
        }
    }
}

// What a blob is, on a line.
fn checked(alloc: Global, name: &str, bytes: &[u8]) -> Result<String, FileFault> {
    let contents = contents_of(alloc, name, bytes)?;
    let len = bytes.len();
    let (kind, groups, changes) = match &contents {
        Contents::Changes(list) => {
            let mut changes = 0usize;
            for group in list.groups() {
                changes = changes.saturating_add(group.changes().len());
            }
            ("changeset", list.groups().len(), changes)
        }
        Contents::Patches(list) => {
            let mut changes = 0usize;
            for group in list.groups() {
                changes = changes.saturating_add(group.changes().len());
            }
            ("patchset", list.groups().len(), changes)
        }
    };
    Ok(format!(in alloc; "{name}: {kind}, groups {groups}, changes {changes}, bytes {len}\n")?)
}

fn summarized(alloc: Global, name: &str, bytes: &[u8]) -> Result<String, FileFault> {
    let contents = contents_of(alloc, name, bytes)?;
    let lines = summary(alloc, &contents)?;
    Ok(with_sizes(alloc, lines.as_str(), bytes, &contents)?)
}

// What is said of each blob.
fn looked_at(
    alloc: Global,
    names: &[String],
    blobs: &[FileBlob<Global>],
    is_summary: bool,
) -> Result<Vec<u8>, FileFault> {
    let mut text = Vec::new(alloc);
    for (name, blob) in names.iter().zip(blobs) {
        let bytes = blob.bytes.as_slice();
        let line = if is_summary {
            summarized(alloc, name.as_str(), bytes)?
        } else {
            checked(alloc, name.as_str(), bytes)?
        };
        text.extend_from_slice(line.as_str().as_bytes())?;
    }
    Ok(text)
}

// The lines that make the tables and rows of a dump, but for the tables that were created before.
fn lines_of(
    alloc: Global,
    name: &str,
    bytes: &[u8],
    created: &mut Vec<CreatedTable<Global>>,
) -> Result<Vec<u8>, FileFault> {
    let contents = contents_of(alloc, name, bytes)?;
    match load_lines(alloc, &contents, bytes, created) {
        Ok(lines) => Ok(lines.into_bytes()),
        Err(Fault::OutOfMemory) => Err(FileFault::Failed),
        Err(Fault::Refused(fault)) => {
            let why = format!(in alloc; "{fault}")?;
            Err(refused(alloc, name, why.as_str()))
        }
    }
}

fn loaded(
    alloc: Global,
    names: &[String],
    blobs: &[FileBlob<Global>],
) -> Result<Vec<u8>, FileFault> {
    let mut created = Vec::new(alloc);
    let mut text = Vec::new(alloc);
    for (name, blob) in names.iter().zip(blobs) {
        let lines = lines_of(alloc, name.as_str(), blob.bytes.as_slice(), &mut created)?;
        text.extend_from_slice(lines.as_slice())?;
    }
    Ok(text)
}

/// The dumps that a shell loads.
#[derive(Drop)]
pub struct ShellDumps {
    pub alloc: Global,
}

impl ShellDumps {
    fn lines(&self, name: &str, bytes: Vec<u8>) -> Result<Vec<u8>, FileFault> {
        let blob = blob_of(self.alloc, name, bytes)?;
        let mut created = Vec::new(self.alloc);
        lines_of(self.alloc, name, blob.bytes.as_slice(), &mut created)
    }
}

impl Dumps for ShellDumps {
    fn loaded(&self, name: &str, bytes: Vec<u8>) -> Result<Loaded, AllocError> {
        match self.lines(name, bytes) {
            Ok(lines) => Ok(Loaded::Lines(lines)),
            Err(FileFault::Refused(line) | FileFault::Misused(line)) => Ok(Loaded::Refused(line)),
            Err(FileFault::Failed) => Err(AllocError),
        }
    }
}

// How a blob is shown.
#[derive(Drop)]
struct Manner {
    form: Form,
    is_lines: bool,
    columns: Vec<TableColumns>,
}

// The words of `--columns`.
fn columns(alloc: Global, words: &[String]) -> Result<Vec<TableColumns>, FileFault> {
    let mut all = Vec::new(alloc);
    for word in words {
        let Some(one) = table_columns(alloc, word.as_str())? else {
            let line = format!(in alloc;
                "error: --columns {word}: not T=NAME,.. with different names"
            )?;
            return Err(FileFault::Misused(line));
        };
        if all.push(one).is_err() {
            return Err(FileFault::Failed);
        }
    }
    Ok(all)
}

fn shown(
    alloc: Global,
    name: &str,
    blob: &FileBlob<Global>,
    manner: &Manner,
) -> Result<Vec<u8>, FileFault> {
    let mut text = Vec::new(alloc);
    let mut bytes = blob.bytes.as_slice();
    match show_blob(alloc, manner.form, Encoding::Binary, &mut bytes, &mut text) {
        Ok(()) => {}
        Err(fault) => return Err(refused_run(alloc, name, fault)),
    }
    if !manner.columns.is_empty() {
        return with_names(alloc, name, blob, manner, text.as_slice());
    }
    if manner.is_lines {
        return Ok(named_json(alloc, text.as_slice(), &[], true)?);
    }
    Ok(text)
}

// What is shown of a blob, of which this is the text without names, with names for its columns.
fn with_names(
    alloc: Global,
    name: &str,
    blob: &FileBlob<Global>,
    manner: &Manner,
    text: &[u8],
) -> Result<Vec<u8>, FileFault> {
    let contents = contents_of(alloc, name, blob.bytes.as_slice())?;
    let all = manner.columns.as_slice();
    if let Some(other) = other_width(all, &contents) {
        let (table, columns, names) = (other.table, other.columns, other.names);
        let why = format!(in alloc;
            "table {table} has {columns} columns, and --columns has {names} names"
        )?;
        return Err(refused(alloc, name, why.as_str()));
    }
    match manner.form {
        Form::Text => Ok(named_text(alloc, &contents, all)?.into_bytes()),
        Form::Json => Ok(named_json(alloc, text, all, manner.is_lines)?),
        Form::Sql => Ok(renamed_sql(alloc, text, all)?),
    }
}

fn renamed_sql(alloc: Global, text: &[u8], all: &[TableColumns]) -> Result<Vec<u8>, AllocError> {
    match str::from_utf8(text) {
        Ok(sql) => Ok(named_sql(alloc, sql, all)?.into_bytes()),
        Err(_) => Err(AllocError),
    }
}

fn converted(
    alloc: Global,
    name: &str,
    blob: &FileBlob<Global>,
    conversion: Conversion,
) -> Result<Vec<u8>, FileFault> {
    let conversion = Conversion {
        encoding: Encoding::Binary,
        ..conversion
    };
    let mut made = Vec::new(alloc);
    let mut bytes = blob.bytes.as_slice();
    match convert_blob(alloc, conversion, &mut bytes, &mut made) {
        Ok(()) => Ok(file_text(alloc, blob.form, made)?),
        Err(fault) => Err(refused_run(alloc, name, fault)),
    }
}

// The blobs, each behind its length.
fn framed(alloc: Global, blobs: &[FileBlob<Global>]) -> Result<Vec<u8>, AllocError> {
    let mut frames = Vec::new(alloc);
    for blob in blobs {
        let len = blob.bytes.len() as u64;
        frames.extend_from_slice(len.to_be_bytes().as_slice())?;
        frames.extend_from_slice(blob.bytes.as_slice())?;
    }
    Ok(frames)
}

// The fault of one of several blobs, with the name of its file.
fn refused_blob(alloc: Global, names: &[String], fault: RunFault) -> FileFault {
    let RunFault::BlobList(BlobListFault::Blob { blob, why }) = fault else {
        return FileFault::Failed;
    };
    let place = blob.saturating_sub(1) as usize;
    let Some(name) = names.get(place) else {
        return FileFault::Failed;
    };
    match format!(in alloc; "{why}") {
        Ok(why) => refused(alloc, name.as_str(), why.as_str()),
        Err(_) => FileFault::Failed,
    }
}

// What several blobs make, in the form of the first.
fn combined(
    alloc: Global,
    names: &[String],
    blobs: &[FileBlob<Global>],
    combination: Combination,
) -> Result<Vec<u8>, FileFault> {
    let combination = Combination {
        encoding: Encoding::Binary,
        ..combination
    };
    let frames = framed(alloc, blobs)?;
    let mut made = Vec::new(alloc);
    let mut bytes = frames.as_slice();
    match combine_blobs(alloc, combination, &mut bytes, &mut made) {
        Ok(()) => {}
        Err(fault) => return Err(refused_blob(alloc, names, fault)),
    }
    let form = match blobs.first() {
        Some(blob) => blob.form,
        None => FileForm::Bytes,
    };
    Ok(file_text(alloc, form, made)?)
}

// What the command makes of the files.
fn made<R: Files + Input + AllocGlobal>(
    rt: &R,
    asked: &Asked,
    names: &[String],
) -> Result<Vec<u8>, FileFault> {
    let alloc = rt.alloc();
    let columns = columns(alloc, asked.manner.columns.as_slice())?;
    let blobs = blobs_in(rt, names)?;
    let (Some(name), Some(blob)) = (names.first(), blobs.first()) else {
        return Err(FileFault::Failed);
    };
    let name = name.as_str();
    match asked.options {
        Options::Load => loaded(alloc, names, blobs.as_slice()),
        Options::Check => looked_at(alloc, names, blobs.as_slice(), false),
        Options::Summary => looked_at(alloc, names, blobs.as_slice(), true),
        Options::Show { form, .. } => {
            let manner = Manner {
                form,
                is_lines: asked.manner.is_lines,
                columns,
            };
            shown(alloc, name, blob, &manner)
        }
        Options::Convert(conversion) => converted(alloc, name, blob, conversion),
        Options::Combine(combination) => combined(alloc, names, blobs.as_slice(), combination),
        Options::Run { .. } | Options::Shell => Err(FileFault::Failed),
    }
}

// Writes a new file with these bytes, which is taken away where a write fails.
fn write_new<R: Files + AllocGlobal>(rt: &R, name: &str, bytes: &[u8]) -> io::Result<()> {
    let mut file = File::create_new(rt, name)?;
    let written = file.write_all(bytes);
    if written.is_err() {
        let _left = fs::remove_file(rt, name);
    }
    written
}

// Writes a file: beside it first, so that nothing is left of it, and it is as it was, where a write fails.
fn write_file<R: Files + AllocGlobal>(rt: &R, name: &str, bytes: &[u8]) -> Result<(), FileFault> {
    let alloc = rt.alloc();
    let beside = format!(in alloc; "{name}.part")?;
    if let Err(error) = write_new(rt, beside.as_str(), bytes) {
        return Err(refused_call(alloc, beside.as_str(), &error));
    }
    if let Err(error) = fs::rename(rt, beside.as_str(), name) {
        let _left = fs::remove_file(rt, beside.as_str());
        return Err(refused_call(alloc, name, &error));
    }
    Ok(())
}

// Does what is asked for with the files, or with standard input where none is named.
pub fn with_files<R: Files + Input + Print + AllocGlobal>(
    rt: &R,
    asked: &Asked,
) -> Result<(), FileFault> {
    let made = if asked.files.is_empty() {
        let input = [String::from_str(rt.alloc(), "-")?];
        made(rt, asked, input.as_slice())?
    } else {
        made(rt, asked, asked.files.as_slice())?
    };
    match &asked.output {
        Some(name) => write_file(rt, name.as_str(), made.as_slice()),
        None => {
            let mut writer = io::writer(rt);
            let written = writer.write_all(made.as_slice());
            written.map_err(|_| FileFault::Failed)
        }
    }
}
