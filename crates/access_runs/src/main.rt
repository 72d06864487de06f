//! Plays histories of frames over the states of addresses: each frame is judged at its port and moment, and tells of what it
//! says. Its output is what the rules of first come and of DHCPv6 make of each.
//!
//! The input is lines:
//!
//!     name NAME DIGITS          octets of a frame in hexadecimal digits
//!     history PER_PORT          a switch at its start, at which a port may hold so many addresses
//!     frame PORT MOMENT NAME    a frame: its verdict is printed
//!     show MOMENT               the addresses that have a state then, and their states, are printed
#![tactic(auto)]

mod scene;
mod switch;

use scene::{Scene, play};

fn main(rt: HostRuntime) -> anyhow::Result<()> {
    let mut scene = Scene::new(rt.alloc());
    for line in rt.lines(rt.alloc()) {
        let line = line?;
        match line.as_str().strip_prefix("history ") {
            Some(per_port) => {
                play(&rt, rt.alloc(), &scene)?;
                scene.begin(rt.alloc(), per_port)?;
            }
            None => scene.add(rt.alloc(), line.as_str())?,
        }
    }
    play(&rt, rt.alloc(), &scene)
}
