//! Files of the system, which are read by name, and which are disks.

use crate::telling::{Fault, Lines, opened, text_of};
use disks::{Disk, FileDisk, FileStores, Stores};
use os_io::{DiskFiles, Failed, FileFault, Files, Memory, Text};
use std::path::PathBuf;
use std::{env, fs, io};

/// A name in the system's temporary folder under which there is no file.
fn free_name(rt: &HostRuntime) -> io::Result<PathBuf> {
    let mut name = env::temp_dir(rt)?;
    name.push("try_ends_file")?;
    let _ = fs::remove_file(rt, name.as_str());
    Ok(name)
}

/// What a read of a file answered.
fn answer_of(read: &Result<Text, FileFault>) -> &str {
    match read {
        Ok(text) => text_of(text.as_slice()),
        Err(FileFault::Failed) => "a fault",
        Err(FileFault::Memory) => "no memory",
    }
}

/// Reads a file's first three bytes, and once more where it is gone.
fn read_file(rt: &HostRuntime, name: &str) -> Result<String, Fault> {
    fs::write(rt, name, b"six bytes")?;
    let mut files = DiskFiles::new(rt);
    let read = files.read_all(rt.alloc(), name, 3);
    fs::remove_file(rt, name)?;
    let gone = files.read_all(rt.alloc(), name, 3);
    let (there, away) = (answer_of(&read), answer_of(&gone));
    Ok(format!(in rt.alloc(); "{there}, and where it is gone {away}")?)
}

/// What was seen of a file that is used, and what it has at the end. It is removed.
fn ended(rt: &HostRuntime, name: &str, seen: Result<String, Fault>) -> Result<String, Fault> {
    let bytes = fs::read(rt, name);
    let _ = fs::remove_file(rt, name);
    let (seen, bytes) = (seen?, bytes?);
    let left = text_of(bytes.as_slice());
    Ok(format!(in rt.alloc(); "{seen}; it leaves {left}")?)
}

/// Writes to a file as a disk, cuts it, and reads it.
fn use_disk(rt: &HostRuntime, name: &str) -> Result<String, Fault> {
    let mut disk = FileDisk::open(rt, name)?;
    let before = disk.len()?;
    disk.write_at(0, b"seven bytes")?;
    disk.write_at(2, b"SE")?;
    disk.cut(9)?;
    disk.sync()?;
    let again = opened(FileDisk::open(rt, name).is_ok());
    let mut bytes = [0; 4];
    let count = disk.read_at(1, &mut bytes)?;
    let end = disk.read_at(9, &mut [0; 4])?;
    let beyond = match disk.read_at(u64::MAX, &mut [0; 4]) {
        Ok(_) => "bytes",
        Err(Failed) => "a fault",
    };
    let faults = disk.faults();
    let nameless = opened(FileDisk::open(rt, "").is_ok());
    let text = text_of(&bytes);
    Ok(format!(in rt.alloc();
        "{before} bytes at first; {again} again; {count} bytes {text} within, {end} at the end, {beyond} beyond; faults {faults}; {nameless} without a name"
    )?)
}

/// Opens a file, writes to it while it is asked for once more, and gives it back.
fn write_alone(stores: &mut FileStores<&HostRuntime>, name: &str) -> Result<&'static str, Fault> {
    let mut disk = stores.open_store(name)?;
    disk.write_at(0, b"a")?;
    let meanwhile = opened(stores.open_store(name).is_ok());
    stores.done_store(disk);
    Ok(meanwhile)
}

fn open_twice(rt: &HostRuntime, name: &str) -> Result<String, Fault> {
    let mut stores = FileStores::new(rt);
    let first = write_alone(&mut stores, name)?;
    let second = write_alone(&mut stores, name)?;
    Ok(format!(in rt.alloc(); "meanwhile {first}, the second time {second}")?)
}

/// Looks for a file that isn't there, which makes none, and for one that is.
fn find_file(rt: &HostRuntime, name: &str) -> Result<String, Fault> {
    let mut stores = FileStores::new(rt);
    let missing = opened(stores.find_store(name).is_ok());
    let made = match fs::read(rt, name) {
        Ok(_) => "made",
        Err(_) => "not made",
    };
    fs::write(rt, name, b"abc")?;
    let mut disk = stores.find_store(name)?;
    let count = disk.len()?;
    stores.done_store(disk);
    Ok(format!(in rt.alloc(); "{missing} and {made} where there is none; else {count} bytes")?)
}

/// What is seen of files of this name, one after the other.
fn tell_each(rt: &HostRuntime, name: &str, lines: &mut Lines) -> Result<(), Memory> {
    lines.tell("a file", read_file(rt, name))?;
    let used = use_disk(rt, name);
    lines.tell("a file as a disk", ended(rt, name, used))?;
    let twice = open_twice(rt, name);
    lines.tell("a file that is opened twice", ended(rt, name, twice))?;
    let found = find_file(rt, name);
    lines.tell("a file that is looked for", ended(rt, name, found))
}

/// Tells what was seen of files.
pub(crate) fn tell(rt: &HostRuntime, lines: &mut Lines) -> Result<(), Memory> {
    match free_name(rt) {
        Ok(name) => tell_each(rt, name.as_str(), lines),
        Err(error) => lines.tell("files", Err(Fault::from(error))),
    }
}
