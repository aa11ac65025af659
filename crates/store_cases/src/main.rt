//! Tries what the built programs cannot be asked: a pool of values, a set of rows, and children and sockets of the system. What
//! is found is printed.
#![tactic(auto)]

mod child_tries;
mod holder;
mod pool_tries;
mod reading;
mod set_tries;
mod udp_tries;
mod worked;

use child_tries::try_children;
use pool_tries::try_pool;
use set_tries::try_sets;
use udp_tries::try_udp;

fn main(rt: HostRuntime) -> anyhow::Result<()> {
    try_pool(&rt)?;
    try_sets(&rt)?;
    try_children(&rt)?;
    try_udp(&rt)
}
