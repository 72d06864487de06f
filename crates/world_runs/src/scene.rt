//! What a run is a run of.

use crate::holding_gate::Hold;
use anyhow::bail;
use load_gen::load;
use std::alloc::{AllocError, Global};

/// The most octets that a source gives in a read, where a scene says nothing else.
pub const READ_MOST: usize = 65_536;

/// What a run is a run of.
#[derive(Drop)]
pub struct Scene {
    /// Octets in hexadecimal digits, each behind its name.
    pub names: Vec<(String, String)>,
    /// The text of the configuration.
    pub plan: String,
    /// What stands in its file behind that text.
    pub octets: Vec<u8>,
    /// The names of the outputs beside the journal.
    pub outputs: Vec<String>,
    /// What its journal begins with.
    pub head: String,
    /// What the inputs of the ports hold, from port 1 on.
    pub captures: Vec<Vec<u8>>,
    /// Whether these are those of a load: there is room for more, and what is written is told by its digest.
    pub is_load: bool,
    /// What the input of control holds, or None.
    pub commands: Option<Vec<u8>>,
    /// How many octets a read of control gives at most, and in a live session one at a port.
    pub pieces: usize,
    /// The readings of clocks, each list behind its port's number, or behind the word of control or of the ticker.
    pub clocks: Vec<(String, Vec<u64>)>,
    /// The turns of a live session that are held back.
    pub holds: Vec<Hold>,
    /// The words behind the program's name.
    pub words: Vec<String>,
    /// Which calls fail, each with the number of the one that does.
    pub faults: Vec<(String, u64)>,
    /// Whether what the program asks of its world is printed.
    pub tells_openings: bool,
}

impl Scene {
    /// A scene without a plan.
    pub fn new(alloc: Global) -> Scene {
        Scene {
            names: Vec::new(alloc),
            plan: String::new(alloc),
            octets: Vec::new(alloc),
            outputs: Vec::new(alloc),
            head: String::new(alloc),
            captures: Vec::new(alloc),
            is_load: false,
            commands: None,
            pieces: READ_MOST,
            clocks: Vec::new(alloc),
            holds: Vec::new(alloc),
            words: Vec::new(alloc),
            faults: Vec::new(alloc),
            tells_openings: false,
        }
    }

    /// The number of the call of this kind that fails, counted from 1, or 0. O(faults).
    pub fn fault(&self, which: &str) -> u64 {
        for (name, number) in &self.faults {
            if name.as_str() == which {
                return *number;
            }
        }
        0
    }

    /// Whether the words ask for a live session.
    pub fn is_live(&self) -> bool {
        match self.words.as_slice() {
            [form, _] => form.as_str() == "serve",
            _ => false,
        }
    }

    /// No call fails in the next run, and its openings aren't printed.
    pub fn forget_faults(&mut self, alloc: Global) {
        self.faults = Vec::new(alloc);
        self.tells_openings = false;
    }

    /// Does what a line says. The error is a line that says nothing, or want of memory.
    pub fn set(&mut self, alloc: Global, line: &str) -> anyhow::Result<()> {
        let (word, rest) = line.split_once(' ').unwrap_or((line, ""));
        match word {
            "" | "#" | "drops" | "answers" | "refused" | "leaves" => {}
            "name" => self.set_name(alloc, rest)?,
            "plan" => self.forget_plan(alloc),
            "captures" => self.forget_inputs(alloc),
            "line" => add_line(&mut self.plan, rest)?,
            "octets" => self.add_to_file(alloc, rest)?,
            "output" => self.outputs.push(String::from_str(alloc, rest)?)?,
            "head" => add_line(&mut self.head, rest)?,
            "capture" => self.add_capture(alloc, rest)?,
            "load" => self.set_load(alloc, rest)?,
            "command" => {
                self.add_commands(alloc, rest.as_bytes())?;
                self.add_commands(alloc, b"\n")?;
            }
            "control" => {
                let octets = self.octets_of(alloc, rest)?;
                self.add_commands(alloc, octets.as_slice())?;
            }
            "pieces" => self.pieces = rest.parse::<usize>()?,
            "clock" => self.set_clock(alloc, rest)?,
            "hold" => self.set_hold(alloc, rest)?,
            "words" => self.words = words_of(alloc, rest)?,
            "fails" => self.set_fault(alloc, rest)?,
            "openings" => self.tells_openings = true,
            _ => bail!("no line of a scene: {line}"),
        }
        Ok(())
    }

    // There is no text, no output but the journal, and no input.
    fn forget_plan(&mut self, alloc: Global) {
        self.plan = String::new(alloc);
        self.octets = Vec::new(alloc);
        self.outputs = Vec::new(alloc);
        self.head = String::new(alloc);
        self.forget_inputs(alloc);
    }

    // No input holds anything, and control has none.
    fn forget_inputs(&mut self, alloc: Global) {
        self.captures = Vec::new(alloc);
        self.is_load = false;
        self.commands = None;
        self.pieces = READ_MOST;
        self.clocks = Vec::new(alloc);
        self.holds = Vec::new(alloc);
    }

    // The inputs of the ports are those of the load of a seed, with so many packets.
    fn set_load(&mut self, alloc: Global, rest: &str) -> anyhow::Result<()> {
        let (seed, frames) = rest.split_once(' ').unwrap_or((rest, ""));
        self.captures = load(alloc, seed.parse::<u32>()?, frames.parse::<u32>()?)?.captures;
        self.is_load = true;
        Ok(())
    }

    // Adds octets to the file of the configuration.
    fn add_to_file(&mut self, alloc: Global, rest: &str) -> anyhow::Result<()> {
        let octets = self.octets_of(alloc, rest)?;
        self.octets.extend_from_slice(octets.as_slice())?;
        Ok(())
    }

    // Adds what the next port's input holds.
    fn add_capture(&mut self, alloc: Global, rest: &str) -> anyhow::Result<()> {
        let octets = self.octets_of(alloc, rest)?;
        self.captures.push(octets)?;
        Ok(())
    }

    // Adds octets to control's input.
    fn add_commands(&mut self, alloc: Global, octets: &[u8]) -> Result<(), AllocError> {
        let mut commands = self.commands.take().unwrap_or(Vec::new(alloc));
        commands.extend_from_slice(octets)?;
        self.commands = Some(commands);
        Ok(())
    }

    /// The readings of the clock behind this word. O(clocks).
    pub fn readings(&self, alloc: Global, which: &str) -> Result<Vec<u64>, AllocError> {
        for (name, readings) in &self.clocks {
            if name.as_str() == which {
                return readings.clone();
            }
        }
        Ok(Vec::new(alloc))
    }

    // Takes the readings of a clock.
    fn set_clock(&mut self, alloc: Global, rest: &str) -> anyhow::Result<()> {
        let (which, rest) = rest.split_once(' ').unwrap_or((rest, ""));
        let mut readings = Vec::new(alloc);
        for word in rest.split_whitespace() {
            readings.push(word.parse::<u64>()?)?;
        }
        let which = String::from_str(alloc, which)?;
        self.clocks.push((which, readings))?;
        Ok(())
    }

    // Takes a turn that is held back.
    fn set_hold(&mut self, alloc: Global, rest: &str) -> anyhow::Result<()> {
        let words = words_of(alloc, rest)?;
        let [pass, turn, until, until_turn] = words.as_slice() else {
            bail!("no four numbers: {rest}");
        };
        self.holds.push(Hold {
            pass: pass.as_str().parse::<u32>()?,
            turn: turn.as_str().parse::<u64>()?,
            until: until.as_str().parse::<u32>()?,
            until_turn: until_turn.as_str().parse::<u64>()?,
        })?;
        Ok(())
    }

    // Takes a name and its digits.
    fn set_name(&mut self, alloc: Global, rest: &str) -> anyhow::Result<()> {
        let (name, digits) = rest.split_once(' ').unwrap_or((rest, ""));
        let name = String::from_str(alloc, name)?;
        self.names.push((name, String::from_str(alloc, digits)?))?;
        Ok(())
    }

    // Takes a call that fails.
    fn set_fault(&mut self, alloc: Global, rest: &str) -> anyhow::Result<()> {
        let (number, which) = rest.split_once(' ').unwrap_or((rest, ""));
        let which = String::from_str(alloc, which)?;
        self.faults.push((which, number.parse::<u64>()?))?;
        Ok(())
    }

    // The octets of these words, one behind the other.
    fn octets_of(&self, alloc: Global, text: &str) -> anyhow::Result<Vec<u8>> {
        let mut all = Vec::new(alloc);
        for word in text.split_whitespace() {
            let part = hex::decode(alloc, self.digits_of(word))?;
            all.extend_from_slice(part.as_slice())?;
        }
        Ok(all)
    }

    // The digits of this name, or the word itself where it is none.
    fn digits_of<'a>(&'a self, word: &'a str) -> &'a str {
        for (name, digits) in &self.names {
            if name.as_str() == word {
                return digits.as_str();
            }
        }
        word
    }
}

fn add_line(text: &mut String, line: &str) -> Result<(), AllocError> {
    text.push_str(line)?;
    text.push('\n')
}

fn words_of(alloc: Global, text: &str) -> Result<Vec<String>, AllocError> {
    let mut words = Vec::new(alloc);
    for word in text.split_whitespace() {
        words.push(String::from_str(alloc, word)?)?;
    }
    Ok(words)
}
