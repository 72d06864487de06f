//! Texts of addresses, prefixes, MAC addresses and numbers.

use crate::input::{number_of, text_of};
use savi_kinds::{
    Addr, VLAN_MOST, put_addr, put_key, put_mac, put_mac_key, read_addr, read_decimal, read_key,
    read_mac, read_prefix,
};
use std::alloc::Global;

/// Prints the address that a text is, how that is written, and the address that this is in turn.
pub fn print_addr(rt: &impl Print, alloc: Global, written: &str) -> anyhow::Result<()> {
    let text = text_of(alloc, written)?;
    let Some(addr) = read_addr(text.as_bytes()) else {
        return Ok(println!(rt; " none")?);
    };
    let spelled = put_addr(addr);
    print!(rt; " {} is {spelled}", digits_of(alloc, addr)?)?;
    match read_addr(spelled.as_bytes()) {
        Some(again) => println!(rt; " is {}", digits_of(alloc, again)?)?,
        None => println!(rt; " is none")?,
    }
    Ok(())
}

// The octets of an address in hexadecimal digits.
fn digits_of(alloc: Global, addr: Addr) -> anyhow::Result<String> {
    Ok(hex::encode(alloc, &addr.0.to_be_bytes())?)
}

/// Prints the prefix that a text is.
pub fn print_prefix(rt: &impl Print, alloc: Global, written: &str) -> anyhow::Result<()> {
    let text = text_of(alloc, written)?;
    match read_prefix(text.as_bytes()) {
        Some(prefix) => println!(rt; " {}/{}", digits_of(alloc, prefix.net)?, prefix.len)?,
        None => println!(rt; " none")?,
    }
    Ok(())
}

/// Prints the MAC address that a text is, and how that is written.
pub fn print_mac(rt: &impl Print, alloc: Global, written: &str) -> anyhow::Result<()> {
    let text = text_of(alloc, written)?;
    match read_mac(text.as_bytes()) {
        Some(mac) => println!(rt; " {} is {}", hex::encode(alloc, &mac.0)?, put_mac(mac))?,
        None => println!(rt; " none")?,
    }
    Ok(())
}

/// Prints the VLAN and the address that a text is, how they are written, and what is read of that in turn.
pub fn print_key(rt: &impl Print, alloc: Global, written: &str) -> anyhow::Result<()> {
    let text = text_of(alloc, written)?;
    let Some((vlan, addr)) = read_key(text.as_bytes()) else {
        return Ok(println!(rt; " none")?);
    };
    let spelled = put_key(vlan, addr);
    print!(rt; " {vlan} {} is {spelled}", digits_of(alloc, addr)?)?;
    match read_key(spelled.as_bytes()) {
        Some((vlan, addr)) => println!(rt; " is {vlan} {}", digits_of(alloc, addr)?)?,
        None => println!(rt; " is none")?,
    }
    Ok(())
}

/// Prints how a MAC address in a VLAN is written: the number of the VLAN, and behind it the MAC address.
pub fn print_mac_key(rt: &impl Print, alloc: Global, rest: &str) -> anyhow::Result<()> {
    let (number, written) = number_of(rest)?;
    let text = text_of(alloc, written)?;
    match (u16::try_from(number), read_mac(text.as_bytes())) {
        (Ok(vlan), Some(mac)) if vlan <= VLAN_MOST => {
            println!(rt; " {}", put_mac_key(vlan, mac))?
        }
        _ => println!(rt; " none")?,
    }
    Ok(())
}

/// Prints the number that a text is, behind the most that is asked for.
pub fn print_decimal(rt: &impl Print, alloc: Global, rest: &str) -> anyhow::Result<()> {
    let (most, written) = number_of(rest)?;
    let text = text_of(alloc, written)?;
    match read_decimal(text.as_bytes(), most) {
        Some(number) => println!(rt; " {number}")?,
        None => println!(rt; " none")?,
    }
    Ok(())
}
