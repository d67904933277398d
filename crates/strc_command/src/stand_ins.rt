//! What takes the place of standard streams that are closed.
use std::fs::{self, File, OpenOptions};
use std::io::ErrorKind;

/// Where the system lists the open files of the running program, and the three standard streams there.
const OPEN_FILES: &str = "/proc/self/fd";

const INPUT: &str = "/proc/self/fd/0";

const OUTPUT: &str = "/proc/self/fd/1";

const DIAGNOSTICS: &str = "/proc/self/fd/2";

/// The file that is opened in their place.
const NOWHERE: &str = "/dev/null";

/// Whether no file is open at this place of the list.
fn is_closed(runtime: &HostRuntime, place: &str) -> bool {
    match fs::symlink_metadata(runtime, place) {
        Ok(_) => false,
        Err(error) => error.kind() == ErrorKind::NotFound,
    }
}

/// Opens a file in place of the stream if that is closed: the system gives it the first place of the list that is free.
fn stand_in(runtime: &HostRuntime, place: &str, options: &OpenOptions) -> Option<File> {
    if !is_closed(runtime, place) {
        return None;
    }
    options.open(runtime, NOWHERE).ok()
}

/// Opens files in place of those of the three standard streams that are closed. Else a file of definitions would take the place of standard
/// input, and be read as the term. What stands for standard input cannot be read, and what stands for the others cannot be written, so that calls
/// on them fail as on closed streams. They are to be kept until the program ends. Nothing is opened where the system has no such list.
pub fn open_stand_ins(runtime: &HostRuntime) -> [Option<File>; 3] {
    if fs::symlink_metadata(runtime, OPEN_FILES).is_err() {
        return [None, None, None];
    }
    let (mut reading, mut writing) = (OpenOptions::new(), OpenOptions::new());
    reading.read(true);
    writing.write(true);
    [
        stand_in(runtime, INPUT, &writing),
        stand_in(runtime, OUTPUT, &reading),
        stand_in(runtime, DIAGNOSTICS, &reading),
    ]
}
