// How a file is opened or made.
use std::fs::{OpenFile, OpenOptions};
use std::io::ErrorKind;
use std::path::Path;
use std::rt::Files;
use std::{fs, io};

// The file of this path, which is opened where it was not yet.
pub(crate) fn opened<'f, R: Files>(
    rt: &R,
    path: &str,
    file: &'f mut Option<R::File>,
) -> io::Result<&'f mut R::File> {
    if file.is_none() {
        *file = Some(open_or_make(rt, path)?);
    }
    file.as_mut().ok_or(io::Error::from(ErrorKind::NotFound))
}

// Opens the file to read and to write it, and makes it where there is none. A file that is made stands in its folder
// only once the folder was brought to the disk too; one that is empty may have been made by a run that ended before
// that.
fn open_or_make<R: Files>(rt: &R, path: &str) -> io::Result<R::File> {
    let file = open_to_write(rt, path)?;
    let about = file.metadata()?;
    if !about.is_file() {
        return Err(io::Error::from(ErrorKind::Unsupported));
    }
    if about.len() == 0 {
        sync_folder(rt, folder_of(path))?;
    }
    Ok(file)
}

fn open_to_write<R: Files>(rt: &R, path: &str) -> io::Result<R::File> {
    let mut how = OpenOptions::new();
    how.read(true);
    how.write(true);
    how.create(true);
    how.open(rt, path)
}

fn sync_folder<R: Files>(rt: &R, folder: &str) -> io::Result<()> {
    fs::open(rt, folder)?.sync_all()
}

// The folder of a file, which is the current one where the path names none.
fn folder_of(path: &str) -> &str {
    match Path::new(path).parent() {
        Some(folder) if !folder.as_str().is_empty() => folder.as_str(),
        _ => ".",
    }
}
