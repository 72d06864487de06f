ghost use Rattle.std.specs.Prelude.{◌≡◌, [], ◌∷◌, ◌↔◌, IsTrue, IfSome, IfNone, codes};
ghost use Rattle.cli_lang.specs.Commands.{IsNoPort, IsPortText, WordsGive, LineGives};
ghost use Rattle.cli_lang.specs.CommandOf.{command_of};

use crate::kinds::{CmdFault, Command};
use crate::words::{Words, words_of};
use savi_kinds::{PORTS_MOST, Port, read_addr, read_decimal, read_key};

/// Reads a command: words with one space between each two, compared exactly.
///
/// `Unknown` where the word and the number of words are those of no command, then `Address` where the address is none
/// (RFC 4291 section 2.2), or the key of `clear` is none (an address in VLAN 1, an address, `@` and the VLAN's number in
/// another), then `PortNumber` where the port isn't from 1 to 16 without a leading zero. Whether a switch has the VLAN isn't
/// asked here. O(n).
pub fn command(line: &[u8]) -> Result<Command, CmdFault>
    ensures gives { LineGives line.now result }
    ensures value { result ≡ command_of line.now }
{
    match words_of(line) {
        Words::One(word) => one_word(word),
        Words::Two(word, argument) => two_words(word, argument),
        Words::Three(word, address, number) => three_words(word, address, number),
        Words::More => Err(CmdFault::Unknown),
    }
}

fn one_word(word: &[u8]) -> Result<Command, CmdFault>
    ensures { WordsGive (word.now ∷ []) result }
{
    if is(word, "quit") {
        Ok(Command::Quit)
    } else {
        Err(CmdFault::Unknown)
    }
}

fn two_words(word: &[u8], argument: &[u8]) -> Result<Command, CmdFault>
    ensures { WordsGive (word.now ∷ argument.now ∷ []) result }
{
    if is(word, "show") {
        show(argument)
    } else if is(word, "clear") {
        match read_key(argument) {
            Some((vlan, address)) => Ok(Command::Clear(vlan, address)),
            None => Err(CmdFault::Address),
        }
    } else if is(word, "shut") {
        match read_port(argument) {
            Some(port) => Ok(Command::Shut(port)),
            None => Err(CmdFault::PortNumber),
        }
    } else if is(word, "open") {
        match read_port(argument) {
            Some(port) => Ok(Command::Reopen(port)),
            None => Err(CmdFault::PortNumber),
        }
    } else {
        Err(CmdFault::Unknown)
    }
}

fn show(what: &[u8]) -> Result<Command, CmdFault>
    ensures { WordsGive (codes "show" ∷ what.now ∷ []) result }
{
    if is(what, "bindings") {
        Ok(Command::ShowBindings)
    } else if is(what, "ports") {
        Ok(Command::ShowPorts)
    } else if is(what, "counters") {
        Ok(Command::ShowCounters)
    } else if is(what, "stations") {
        Ok(Command::ShowStations)
    } else {
        Err(CmdFault::Unknown)
    }
}

fn three_words(word: &[u8], address: &[u8], number: &[u8]) -> Result<Command, CmdFault>
    ensures { WordsGive (word.now ∷ address.now ∷ number.now ∷ []) result }
{
    if !is(word, "static") {
        return Err(CmdFault::Unknown);
    }
    let Some(address) = read_addr(address) else {
        return Err(CmdFault::Address);
    };
    match read_port(number) {
        Some(port) => Ok(Command::Static(address, port)),
        None => Err(CmdFault::PortNumber),
    }
}

// Whether the word is this text.
fn is(word: &[u8], text: &str) -> bool
    ensures { IsTrue result ↔ (word.now ≡ text.now) }
{
    word == text.as_bytes()
}

// Reads the number of a port.
fn read_port(text: &[u8]) -> Option<Port>
    ensures read { IfSome result (λ p. IsPortText text.now p) }
    ensures only { IfNone result (IsNoPort text.now) }
{
    let number = read_decimal(text, PORTS_MOST as u64)?;
    Port::new(number as u8)
}
