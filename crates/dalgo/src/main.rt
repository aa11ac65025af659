//! Checks DistAlgo programs, replays their schedules, runs their processes as nodes, alone or all together, and joins what nodes
//! told: writes what they do.
#![tactic(auto)]

mod joined;
mod needs;
mod refused;
mod report;
mod stopped;
mod watch;

use arq_link::ArqLink;
use da_commands::{NoWords, Status, dalgo, exit_code, words_of_call};
use da_outside::{RealFiles, RealSink, RealSpawner};
use report::{Outcome, report};
use std::process::ExitCode;
use udp_link::UdpLink;
use watch::Watched;

fn main(rt: HostRuntime) -> ExitCode {
    let words = words_of_call(&rt);
    if matches!(words, Err(NoWords::Memory)) {
        let outcome = Outcome {
            status: Status::Memory,
            fault: &[],
            count: 0,
            blocks: &[],
            child: None,
        };
        report(&rt, &[], outcome);
    }
    exit_code(words, |words| {
        let mut files = RealFiles::new(&rt);
        let mut out = Watched::new(rt.alloc(), RealSink::new(&rt));
        let mut link = ArqLink::new(rt.alloc(), UdpLink::new(&rt));
        let mut children = RealSpawner::new(&rt, None);
        let status = dalgo(
            rt.alloc(),
            words.as_slice(),
            &mut files,
            &mut out,
            &mut link,
            &mut children,
        );
        children.end();
        let outcome = Outcome {
            status,
            fault: out.fault(),
            count: out.count(),
            blocks: out.blocks(),
            child: children.trouble(),
        };
        report(&rt, words.as_slice(), outcome);
        status
    })
}
