//! Reads scripts from files.
ghost use Rattle.std.specs.Prelude.{◌≡◌, ◌≤◌, ◌<◌, ◌^◌, false, length, nat_lt, vec_len, IfOk};
ghost use Rattle.std.specs.Prelude.{IfErr};
ghost use Rattle.be_script_runner.specs.Imports.{list_any};
ghost use Rattle.be_script_runner.specs.Run.{IsEarly};

use crate::RunFault;
use crate::runs::read_script;
use std::alloc::Global;
use std::fs;
use std::rt::Files;

/// Reads a whole file as a script; `-` is standard input. A file that can't be opened counts as a
/// file that can't be read.
fn read_file<R: Files + Input>(rt: &R, alloc: Global, file: &str) -> Result<Vec<u8>, RunFault>
    ensures fits { IfOk result (λ script. vec_len script ≤ 2 ^ 20) }
    ensures early { IfErr result IsEarly }
{
    if file == "-" {
        return read_script(alloc, &mut rt.reader());
    }
    match fs::open(rt, file) {
        Ok(mut script) => read_script(alloc, &mut script),
        Err(_) => Err(RunFault::Read),
    }
}

/// The error to return if the file at this position is too long: the error of the first later file
/// that can't be read, or TooLong for this file if all of them can.
fn stop_at<R: Files + Input>(
    rt: &R,
    alloc: Global,
    files: &[String],
    place: usize,
) -> (usize, RunFault)
    requires { place < length files.now }
    ensures { (result.0 < length files.now) × IsEarly result.1 }
{
    for next in place + 1..files.len() {
        match read_file(rt, alloc, files[next].as_str()) {
            Ok(_) | Err(RunFault::TooLong) => {}
            Err(fault) => return (next, fault),
        }
    }
    (place, RunFault::TooLong)
}

/// Reads the scripts in these files, in order. `-` is standard input, and a second `-` reads as
/// empty. It stops at the first file that can't be read, and returns that file's position, counting
/// from 0, with Read or Memory. If all files can be read but some are too long, it returns the
/// position of the first of these with TooLong.
pub fn read_files<R: Files + Input>(
    rt: &R,
    alloc: Global,
    files: &[String],
) -> Result<Vec<Vec<u8>>, (usize, RunFault)>
    ensures scripts { IfOk result (λ scripts. vec_len scripts ≡ length files.now) }
    ensures short { IfOk result (λ scripts. list_any (λ s. nat_lt (2 ^ 20) (vec_len s))
        scripts.items ≡ false) }
    ensures fault { IfErr result (λ stop. (stop.0 < length files.now) × IsEarly stop.1) }
{
    let mut scripts = Vec::new(alloc);
    for (place, file) in files.iter().enumerate() {
        match read_file(rt, alloc, file.as_str()) {
            Ok(script) => {
                if scripts.push(script).is_err() {
                    return Err((place, RunFault::Memory));
                }
            }
            Err(RunFault::TooLong) => return Err(stop_at(rt, alloc, files, place)),
            Err(fault) => return Err((place, fault)),
        }
    }
    Ok(scripts)
}
