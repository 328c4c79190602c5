// Files: read whole, and replaced whole.
ghost use Rattle.std.specs.Prelude.{◌≤◌, length, IfSome};

use crate::line::{complain, fail};
use std::fs;
use std::fs::{File, OpenOptions};
use std::io::{Error, ErrorKind, Read, Result, Seek, SeekFrom, Write};

// The most bytes of a path, and a zero after it.
pub const PATH_MAX: usize = 4096;

// Room for a path and `.new`.
const NEW_PATH: usize = PATH_MAX + 4;

// The system's number of a byte that is no text.
const EILSEQ: i32 = 84;

// ---- reading

// Reads until the room is full, the input ends or a read fails; how many bytes came.
fn read_full<R: Read>(input: &mut R, room: &mut [u8]) -> usize
    ensures { result ≤ length room.old }
{
    let mut done = 0;
    // By hand: a read takes as many places as it will.
    while done < room.len() {
        match input.read(&mut room[done..]) {
            Ok(n) if n > 0 => done += n,
            _ => return done,
        }
    }
    done
}

// A short count is the end of the file only where one more read says so.
fn is_ended<R: Read>(rt: HostRuntime, input: &mut R, path: &[u8]) -> bool {
    let mut one = [0u8; 1];
    match input.read(&mut one) {
        Ok(0) => true,
        Ok(_) => {
            complain(rt.stderr(), path, ": more came after its end");
            false
        }
        Err(e) => {
            fail(rt.stderr(), path, e);
            false
        }
    }
}

// What is left of an open file to the front of the room, as much as it has places for: how many bytes came. A failure is said.
pub fn fill<R: Read>(rt: HostRuntime, input: &mut R, path: &[u8], room: &mut [u8]) -> Option<usize>
    ensures { IfSome result (λ n. n ≤ length room.old) }
{
    let count = read_full(input, room);
    if count == room.len() || is_ended(rt, input, path) {
        Some(count)
    } else {
        None
    }
}

// The path as std takes it: text.
fn text_of(path: &[u8]) -> Result<&str> {
    str::from_utf8(path).map_err(|_| Error::from_raw_os_error(EILSEQ))
}

fn open_by(rt: HostRuntime, path: &[u8], how: OpenOptions) -> Result<File> {
    how.open(&rt, text_of(path)?)
}

fn open_read(rt: HostRuntime, path: &[u8]) -> Result<File> {
    let mut how = File::options();
    how.read(true);
    open_by(rt, path, how)
}

// The file, open for reading. A failure is said.
pub fn open(rt: HostRuntime, path: &[u8]) -> Option<File> {
    match open_read(rt, path) {
        Ok(f) => Some(f),
        Err(e) => {
            fail(rt.stderr(), path, e);
            None
        }
    }
}

// ---- what stands at a path

fn is_link(rt: HostRuntime, path: &[u8]) -> bool {
    let Ok(text) = text_of(path) else {
        return false;
    };
    fs::symlink_metadata(&rt, text).is_ok_and(|m| m.is_symlink())
}

// Only a regular file can be cut to a length, here to its own.
fn cut_to_its_own(mut f: &File) -> Result<()> {
    let length = f.seek(SeekFrom::End(0))?;
    f.set_len(length)
}

// Whether the open file, which is closed, is regular; if it is not, that is said.
fn is_file(rt: HostRuntime, f: File, path: &[u8]) -> bool {
    let regular = cut_to_its_own(&f).is_ok();
    if !regular {
        complain(
            rt.stderr(),
            path,
            ": is no regular file, and is left as it is",
        );
    }
    regular
}

fn open_update(rt: HostRuntime, path: &[u8]) -> Result<File> {
    let mut how = File::options();
    how.read(true).write(true);
    open_by(rt, path, how)
}

// Whether nothing stands there, or a regular file that may be written; if not, that is said.
fn is_free(rt: HostRuntime, path: &[u8]) -> bool {
    if is_link(rt, path) {
        complain(
            rt.stderr(),
            path,
            ": is a link; name the file that it leads to",
        );
        return false;
    }
    match open_update(rt, path) {
        Ok(f) => is_file(rt, f, path),
        Err(e) => {
            let missing = e.kind() == ErrorKind::NotFound;
            if !missing {
                fail(rt.stderr(), path, e);
            }
            missing
        }
    }
}

// ---- writing

// All bytes to the open file, which is closed.
fn store(mut file: File, bytes: &[u8]) -> Result<()> {
    file.write_all(bytes)?;
    file.sync_all()
}

// The new file could not be made: why, and what to do where one is there.
fn fail_new(rt: HostRuntime, new: &[u8], e: Error) {
    match e.kind() {
        ErrorKind::AlreadyExists => complain(
            rt.stderr(),
            new,
            ": is there, left by a run that was cut short: remove it, and try again",
        ),
        _ => fail(rt.stderr(), new, e),
    }
}

fn create(rt: HostRuntime, path: &[u8]) -> Result<File> {
    let mut how = File::options();
    how.write(true).create_new(true);
    open_by(rt, path, how)
}

// What cannot be removed is left.
fn remove(rt: HostRuntime, path: &[u8]) {
    if let Ok(text) = text_of(path) {
        let _ = fs::remove_file(&rt, text);
    }
}

fn rename(rt: HostRuntime, from: &[u8], to: &[u8]) -> Result<()> {
    fs::rename(&rt, text_of(from)?, text_of(to)?)
}

// The new file is made by this run alone, so it may be removed again.
fn replace_by(rt: HostRuntime, new: &[u8], path: &[u8], bytes: &[u8]) -> bool {
    let f = match create(rt, new) {
        Ok(f) => f,
        Err(e) => {
            fail_new(rt, new, e);
            return false;
        }
    };
    if let Err(e) = store(f, bytes) {
        fail(rt.stderr(), new, e);
        remove(rt, new);
        return false;
    }
    if let Err(e) = rename(rt, new, path) {
        fail(rt.stderr(), path, e);
        remove(rt, new);
        return false;
    }
    true
}

// The bytes become the file, whole; on a failure, which is said, the file is as it was.
pub fn replace(rt: HostRuntime, path: &[u8], bytes: &[u8]) -> bool {
    let mut new = [0u8; NEW_PATH];
    let at = letters::put_bytes(&mut new, 0, path);
    let n = letters::put_bytes(&mut new, at, b".new");
    if n > NEW_PATH {
        complain(rt.stderr(), path, ": the name is too long");
        return false;
    }
    is_free(rt, path) && replace_by(rt, &new[..n], path, bytes)
}
