//! The lines of a header, and the last line.

use hist_store::{
    is_begin_line, read_mac_line, read_port_line, read_prefix_line, read_savi_line, read_setting,
    read_unknown_line, read_version_line,
};
use std::fmt::Debug;

/// The names of the settings, and that of the last line.
const SETTINGS: [&str; 8] = [
    "per_port", "depth", "entries", "bytes", "gap", "test", "binding", "end",
];

/// Prints what each reader says that takes this line behind the line before it, if there was one.
pub fn print_header_line(rt: &impl Print, before: &str, text: &str) -> anyhow::Result<()> {
    let line = text.as_bytes();
    let last_port = match read_port_line(before.as_bytes(), None) {
        Some(read) => Some(read.0),
        None => None,
    };
    let last_prefix = read_prefix_line(before.as_bytes(), None);
    print_value(rt, "version", read_version_line(line))?;
    print_value(rt, "mac", read_mac_line(line))?;
    print_value(rt, "savi", read_savi_line(line))?;
    print_value(rt, "unknown drop", read_unknown_line(line))?;
    for name in SETTINGS {
        print_value(rt, name, read_setting(line, name))?;
    }
    print_value(rt, "port", read_port_line(line, last_port))?;
    let prefix = read_prefix_line(line, last_prefix);
    print_value(
        rt,
        "prefix",
        prefix.map(|plan| (plan.prefix, plan.method, plan.vlan)),
    )?;
    print_value(rt, "begin", is_begin_line(line).then_some(true))
}

// Prints a value that was read, if any was.
fn print_value<T: Drop + Debug>(
    rt: &impl Print,
    name: &str,
    value: Option<T>,
) -> anyhow::Result<()> {
    if let Some(value) = value {
        println!(rt; "  {name}: {value:?}")?;
    }
    Ok(())
}
