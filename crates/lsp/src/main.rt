//! The language server for DistAlgo programs, over standard input and standard output.
#![tactic(auto)]

use da_commands::Ending;
use da_outside::RealSink;
use lsp_frames::RealSource;
use lsp_server::{Status, serve};
use std::io::Eprint;
use std::process::ExitCode;

fn main(rt: HostRuntime) -> ExitCode {
    let mut source = RealSource::new(rt.reader());
    let mut out = RealSink::new(&rt);
    let status = serve(rt.alloc(), &mut source, &mut out);
    tell(&rt, status);
    ExitCode::from(status.code())
}

// Tells a person why the session ended, where it did not by `exit`.
fn tell<R: Eprint>(rt: &R, status: Status) {
    let told = match status {
        Status::Stopped | Status::Left => return,
        Status::Closed => eprintln!(rt; "dalgo lsp: the stream ended without 'exit'"),
        Status::ReadFault => eprintln!(rt; "dalgo lsp: standard input cannot be read"),
        Status::WriteFault => eprintln!(rt; "dalgo lsp: standard output cannot be written"),
        Status::Memory => eprintln!(rt; "dalgo lsp: out of memory"),
        Status::Spent => eprintln!(rt; "dalgo lsp: no more turns are left"),
    };
    drop(told);
}
