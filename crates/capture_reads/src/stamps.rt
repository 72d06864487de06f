// The stamps of a capture.

use crate::capture::frames_of;
use std::io;
use std::rt::Files;

/// Prints the name of a capture, how many frames it has, and a line for each stamp in ms.
pub fn print_stamps<R: Files + AllocGlobal + Print>(rt: &R, name: &str) -> io::Result<()> {
    let frames = frames_of(rt, name)?;
    println!(rt; "{name}: {} frames", frames.len())?;
    for frame in &frames {
        println!(rt; "{}", frame.stamp)?;
    }
    Ok(())
}
