//! The names of the outputs.

ghost use Rattle.std.specs.Prelude.{IfOk};
ghost use Rattle.split_run.specs.Names.{AreNames};

use savi_kinds::Text;
use std::alloc::{AllocError, Global};

/// The outputs are those of the first so many interfaces of a capture.
pub const OUTPUTS_MOST: u32 = 16;

/// The names of the outputs of the interfaces 0 to 15 of the capture of this name: `FILE.0.pcap` and so on.
///
/// `Err` is want of memory.
pub fn output_names(alloc: Global, file: &str) -> Result<Vec<Text>, AllocError>
    ensures { IfOk result (λ names. AreNames file.now names.items) }
{
    let mut names = Vec::with_capacity(alloc, OUTPUTS_MOST as usize)?;
    for interface in 0..OUTPUTS_MOST {
        let name = format!(in alloc; "{file}.{interface}.pcap")?;
        names.push_reserved(Text::new(name));
    }
    Ok(names)
}
