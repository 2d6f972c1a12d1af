//! Hydra, a bounded checker for Boogie programs. It makes the real shelf, sink and words, calls the
//! top call, and ends with its status.
#![tactic(auto)]

ghost use Rattle.std.specs.Prelude.{◌≡◌};
ghost use Rattle.std.specs.Process.{exit_status};

use hy_outside::{FileShelf, StdSink};
use hy_text::Text;
use hydra_top::writing::write_all;
use hydra_top::{Report, run_solo};
use std::alloc::{AllocError, Global};
use std::process::ExitCode;
use std::rt::Env;
use std::{env, io};

// The arguments after the program's name, or no words where one of them is not text.
fn words(rt: &HostRuntime) -> Result<Vec<Text>, AllocError> {
    let mut words = Vec::new(rt.alloc());
    match env::args(rt) {
        Ok(args) => {
            for arg in args.skip(1) {
                words.push(Text::from_str(rt.alloc(), arg.as_str())?)?;
            }
        }
        Err(error) => {
            if error.kind() == io::ErrorKind::OutOfMemory {
                return Err(AllocError);
            }
        }
    }
    Ok(words)
}

// The status of the process.
fn status(report: &Report) -> ExitCode
    ensures { exit_status result ≡ report.now.status }
{
    ExitCode::from(report.status)
}

fn main(rt: HostRuntime) -> ExitCode {
    let mut shelf = FileShelf::new(&rt, rt.alloc());
    let mut out = StdSink::new(&rt);
    match words(&rt) {
        Ok(words) => {
            let report = run_solo(rt.alloc(), words.as_slice(), &mut shelf, &mut out);
            status(&report)
        }
        Err(_) => {
            let _ = write_all(&mut out, b"no memory\n");
            ExitCode::from(6)
        }
    }
}
