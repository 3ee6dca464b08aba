//! A copy of the store in a file, which is opened in its place to be shown.
//!
//! What a killed program left is to stay as it is, and opening a store may change its file. So the file and what lies
//! beside it are copied into a folder of their own, among the files that are temporary. A program may write them
//! meanwhile, and such a copy can hold parts of two moments: so it is thrown away, and another one is made.
//! Cited by files.rt.
ghost use Rattle.std.specs.Prelude.{◌≡◌, ◌↔◌, ◌⊎◌};
ghost use Rattle.std.specs.IoError.{error_kind};

use kt_sql::SqlOpenError;
use std::alloc::AllocError;
use std::fs::DirBuilder;
use std::io::{ErrorKind, Read, Write};
use std::os::unix::fs::{DirBuilderExt, MetadataExt};
use std::time::Duration;
use std::{env, fs, io, thread};
use thiserror::Error;

/// The most folders that are tried. One stays where a program is killed while it copies.
const MAX_FOLDERS: u32 = 10_000;

/// How often a copy is made of a file that is written meanwhile.
const TRIES: u32 = 8;

/// How long it takes from the look at the files to their copy, in milliseconds. The clock by which a file is stamped
/// stands still for some milliseconds, and what is written while they are copied is to have another stamp.
const PAUSE: u64 = 20;

/// How many bytes are copied at a time.
const CHUNK: usize = 8192;

/// The ending of the log that belongs to a database file.
const LOG: &str = "-wal";

/// The ending of the journal of a change that broke off. No store makes one, and none is opened where one lies.
const JOURNAL: &str = "-journal";

/// Why no copy of the store in a file is opened.
#[derive(Clone, Copy, Debug, PartialEq, Eq, Error)]
pub enum ShowError {
    /// Nothing has that path.
    #[error("there is no such file")]
    Missing,
    /// The path is a folder's.
    #[error("it is a folder")]
    Folder,
    /// The path is one of a device, say.
    #[error("it is no regular file")]
    NotRegular,
    /// The file, or its log, may not or can't be read.
    #[error("it can't be read")]
    Unreadable,
    /// The file, or its log, was written each time while it was copied.
    #[error("it is being written")]
    Written,
    /// There is no folder for temporary files, or no room in it.
    #[error("it can't be copied to the folder for temporary files")]
    NoCopy,
    /// Memory was refused.
    #[error("Memory")]
    Memory,
    /// The copy was not opened: it is no store, say.
    #[error("{0}")]
    Open(SqlOpenError),
}

impl From<AllocError> for ShowError {
    ghost use Rattle.std.specs.Prelude.{◌≡◌};
    ghost use Rattle.linda_kt.specs.declared.copies.ShowError.TheVariants.{Memory};

    ghost from_gives = { λ _ e. e ≡ Memory };

    fn from(_: AllocError) -> Self {
        ShowError::Memory
    }
}

/// A copy of the store in a file.
#[derive(Drop)]
pub struct StoreCopy {
    /// The folder that was made for it, in which there is nothing else.
    folder: String,
    /// The copy of the database file.
    file: String,
}

impl StoreCopy {
    /// The path of the copy.
    pub fn path(&self) -> &str {
        self.file.as_str()
    }

    /// Removes the copy and its folder.
    pub fn remove(self, rt: &HostRuntime) {
        // One that can't be removed stays.
        let _ = fs::remove_dir_all(rt, self.folder.as_str());
    }

    /// A folder for a copy, which nobody else may look into. Nothing is copied yet.
    pub(crate) fn make(rt: &HostRuntime) -> Result<StoreCopy, ShowError> {
        let folder = make_folder(rt)?;
        match format!(in rt.alloc(); "{folder}/store") {
            Ok(file) => Ok(StoreCopy { folder, file }),
            Err(error) => {
                // As above.
                let _ = fs::remove_dir(rt, folder.as_str());
                Err(error.into())
            }
        }
    }
}

/// By what is seen whether a file was written.
#[derive(Clone, Copy, Debug, PartialEq, Eq)]
struct Stamp {
    /// Its number on its device: another file may have been put in its place.
    number: u64,
    /// Its length.
    length: u64,
    /// When it was written last, in seconds.
    seconds: i64,
    /// The nanoseconds of that.
    nanoseconds: i64,
}

/// The stamps of all that belongs to a store.
#[derive(Clone, Copy, Debug, PartialEq, Eq)]
struct Stamps {
    /// That of the database file.
    file: Stamp,
    /// That of its log, where there is one.
    log: Option<Stamp>,
    /// That of its journal, where there is one.
    journal: Option<Stamp>,
}

/// Copies the store in the file, at a moment at which nothing writes it. Nothing of the file is changed, and where it
/// is not copied nothing is left behind.
pub fn copy_aside(rt: &HostRuntime, path: &str) -> Result<StoreCopy, ShowError> {
    // As the store does it: a log lies where a link leads.
    let path = fs::canonicalize(rt, path).map_err(read_fault)?;
    for _ in 0..TRIES {
        let before = stamps_of(rt, path.as_str())?;
        thread::sleep(rt, Duration::from_millis(PAUSE));
        let copy = copy_now(rt, path.as_str())?;
        if stamps_of(rt, path.as_str()) == Ok(before) {
            return Ok(copy);
        }
        copy.remove(rt);
    }
    Err(ShowError::Written)
}

/// The stamps of the file and of those beside it.
fn stamps_of(rt: &HostRuntime, path: &str) -> Result<Stamps, ShowError> {
    let file = stamp_of(rt, path)?;
    let log = stamp_beside(rt, path, LOG)?;
    let journal = stamp_beside(rt, path, JOURNAL)?;
    Ok(Stamps { file, log, journal })
}

/// The stamp of the file with this ending beside the database file; none where there is no such file.
fn stamp_beside(rt: &HostRuntime, path: &str, ending: &str) -> Result<Option<Stamp>, ShowError> {
    let path = format!(in rt.alloc(); "{path}{ending}")?;
    match stamp_of(rt, path.as_str()) {
        Ok(stamp) => Ok(Some(stamp)),
        Err(ShowError::Missing) => Ok(None),
        Err(ShowError::Memory) => Err(ShowError::Memory),
        Err(_) => Err(ShowError::Unreadable),
    }
}

/// The stamp of a regular file. Others are not even opened: that alone could wait, or set a device going.
fn stamp_of(rt: &HostRuntime, path: &str) -> Result<Stamp, ShowError> {
    let known = fs::metadata(rt, path).map_err(read_fault)?;
    if known.is_dir() {
        return Err(ShowError::Folder);
    }
    if !known.is_file() {
        return Err(ShowError::NotRegular);
    }
    Ok(Stamp {
        number: known.ino(),
        length: known.len(),
        seconds: known.mtime(),
        nanoseconds: known.mtime_nsec(),
    })
}

/// Copies the file and those beside it as they are now. Where that fails, nothing is left behind.
fn copy_now(rt: &HostRuntime, path: &str) -> Result<StoreCopy, ShowError> {
    let copy = StoreCopy::make(rt)?;
    match copy_all(rt, path, copy.path()) {
        Ok(()) => Ok(copy),
        Err(error) => {
            copy.remove(rt);
            Err(error)
        }
    }
}

/// A folder that this call has made.
fn make_folder(rt: &HostRuntime) -> Result<String, ShowError> {
    let parent = env::temp_dir(rt).map_err(copy_fault)?;
    for number in 0..MAX_FOLDERS {
        let folder = format!(in rt.alloc(); "{}/linda_kt-show-{number}", parent.as_str())?;
        match DirBuilder::new().mode(0o700).create(rt, folder.as_str()) {
            Ok(()) => return Ok(folder),
            Err(error) if error.kind() == ErrorKind::AlreadyExists => {}
            Err(error) => return Err(copy_fault(error)),
        }
    }
    Err(ShowError::NoCopy)
}

/// Copies the database file, and those beside it that are there.
fn copy_all(rt: &HostRuntime, path: &str, to: &str) -> Result<(), ShowError> {
    copy_file(rt, path, to)?;
    copy_beside(rt, path, to, LOG)?;
    copy_beside(rt, path, to, JOURNAL)
}

/// Copies the file with this ending beside the database file, if it is there.
fn copy_beside(rt: &HostRuntime, path: &str, to: &str, ending: &str) -> Result<(), ShowError> {
    let path = format!(in rt.alloc(); "{path}{ending}")?;
    let to = format!(in rt.alloc(); "{to}{ending}")?;
    match copy_file(rt, path.as_str(), to.as_str()) {
        Ok(()) | Err(ShowError::Missing) => Ok(()),
        Err(error) => Err(error),
    }
}

/// Copies a regular file.
fn copy_file(rt: &HostRuntime, path: &str, to: &str) -> Result<(), ShowError> {
    let mut file = open_regular(rt, path)?;
    copy_bytes(rt, &mut file, to)
}

/// Opens a regular file to read it.
fn open_regular(rt: &HostRuntime, path: &str) -> Result<fs::File, ShowError> {
    let _ = stamp_of(rt, path)?;
    fs::File::open(rt, path).map_err(read_fault)
}

/// Copies what is left to read of the file into one that is made.
fn copy_bytes(rt: &HostRuntime, file: &mut fs::File, to: &str) -> Result<(), ShowError> {
    let mut copy = fs::File::create_new(rt, to).map_err(copy_fault)?;
    let mut chunk = [0u8; CHUNK];
    for _ in 0..u64::MAX {
        match file.read(&mut chunk) {
            Ok(0) => return Ok(()),
            Ok(count) => copy.write_all(&chunk[..count]).map_err(copy_fault)?,
            Err(error) if error.kind() == ErrorKind::Interrupted => {}
            Err(error) => return Err(read_fault(error)),
        }
    }
    Err(ShowError::Unreadable)
}

/// Why a file was not read.
fn read_fault(error: io::Error) -> ShowError
    ensures memory { result ≡ ShowError.Memory ↔ error_kind error ≡ ErrorKind.OutOfMemory }
    ensures missing { result ≡ ShowError.Missing
        ↔ (error_kind error ≡ ErrorKind.NotFound) ⊎ (error_kind error ≡ ErrorKind.NotADirectory) }
    ensures else_unreadable { (result ≡ ShowError.Memory) ⊎ ((result ≡ ShowError.Missing)
        ⊎ (result ≡ ShowError.Unreadable)) }
{
    match error.kind() {
        ErrorKind::NotFound | ErrorKind::NotADirectory => ShowError::Missing,
        ErrorKind::OutOfMemory => ShowError::Memory,
        _ => ShowError::Unreadable,
    }
}

/// Why a copy was not written.
fn copy_fault(error: io::Error) -> ShowError
    ensures memory { result ≡ ShowError.Memory ↔ error_kind error ≡ ErrorKind.OutOfMemory }
    ensures else_no_copy { (result ≡ ShowError.Memory) ⊎ (result ≡ ShowError.NoCopy) }
{
    match error.kind() {
        ErrorKind::OutOfMemory => ShowError::Memory,
        _ => ShowError::NoCopy,
    }
}
