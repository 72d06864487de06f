//! Puts events to switches one by one, and prints what becomes of each: the entry that was made, or that there was no room
//! or nothing to be done.
//!
//! The input is lines. A scene is a plan and the events that its switch meets:
//!
//!     name NAME DIGITS          octets of a frame in hexadecimal digits
//!     scene TITLE               a switch begins, of the plan that follows
//!     line TEXT                 a line of its configuration
//!     frame PORT STAMP NAME     a frame
//!     long PORT STAMP OCTETS    a frame of more than 1,518 octets
//!     command STAMP TEXT        a line of control; its reply is printed too
//!     tick STAMP                time passes
//!     end PORT                  the input of a port ends
//!     fail PORT                 a write of the output of a port fails
//!     drain PORT COUNT          at most so many items of a port's queue are taken; each is printed too
//!
//! `tools/library-runs` works out what has to be printed, by the second implementation.
#![tactic(auto)]

mod events;
mod scene;

use scene::Scene;

fn main(rt: HostRuntime) -> anyhow::Result<()> {
    let mut scene = Scene::new(rt.alloc());
    for line in rt.lines(rt.alloc()) {
        let line = line?;
        match line.as_str().strip_prefix("scene ") {
            Some(title) => {
                scene.play(&rt, rt.alloc())?;
                scene.begin(rt.alloc())?;
                println!(rt; "== {title}")?;
            }
            None => scene.add(rt.alloc(), line.as_str())?,
        }
    }
    scene.play(&rt, rt.alloc())
}
