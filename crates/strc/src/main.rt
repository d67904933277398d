//! The program: the words of the command line, the files of the system and the standard streams, given to `run_standard`.
#![tactic(auto)]

use keyed_hash::HashKeys;
use std::io;
use std::process::ExitCode;
use str_pipeline::Counted;
use strc_command::{Files, open_stand_ins, run_standard, words_of};

fn main(rt: HostRuntime) -> ExitCode {
    let _kept = open_stand_ins(&rt);
    let stdout = rt.stdout();
    let stderr = rt.stderr();
    let mut input = Counted::new(rt.reader());
    let mut out = Counted::new(io::writer(&stdout));
    let mut diagnostics = Counted::new(io::writer(&stderr));
    let mut files = Files::new(&rt);
    let status = run_standard(
        rt.alloc(),
        HashKeys::draw(&rt),
        &words_of(&rt),
        &mut files,
        &mut input,
        &mut out,
        &mut diagnostics,
    );
    ExitCode::from(status)
}
