//! The lines of a journal's header that each plan has once: the version of the text, and the settings of the switch.

ghost use Rattle.std.specs.Prelude.{◌≡◌, ◌^◌, ◌<◌, ℕ, Some, IfSome};
ghost use Rattle.hist_store.specs.TextOfLines.{joined};
ghost use Rattle.hist_store.specs.JournalTexts.{setting};
ghost use Rattle.savi_kinds.specs.MacText.{HasSixOctets};
ghost use Rattle.savi_kinds.specs.ValidPlan.{IsWithin};

use hist_store::{
    Version, read_mac_line, read_savi_line, read_setting, read_unknown_line, read_version_line,
};
use savi_kinds::{
    BYTES_MOST, DEPTH_MOST, ENTRIES_LEAST, ENTRIES_MOST, FRAME_OCTETS_MOST, GAP_MOST_MS,
    LIFE_MOST_S, Mac, PER_PORT_MOST, TEST_LEAST_MS, TEST_MOST_MS,
};

/// How many lines the settings have.
pub const SETTING_LINES: usize = 11;

/// The version of a text, and the settings of a plan, which are always within the limits.
#[derive(Clone, Copy, PartialEq, Eq, Debug)]
pub struct Settings {
    pub version: Version,
    pub mac: Mac,
    pub savi: bool,
    pub drop_unknown: bool,
    pub per_port: u32,
    pub depth: u32,
    pub entries: u64,
    pub bytes: u64,
    pub gap: u64,
    pub test: u64,
    pub life: u64,
}

impl Settings {
    ghost use Rattle.std.specs.Prelude.{◌≡◌, ◌<◌, true, false};
    ghost use Rattle.journal_check.specs.SettingLines.{AreSettings, IsRead, IsNotNext};

    /// Some settings.
    pub fn new() -> Settings
        ensures { AreSettings result }
    {
        Settings {
            version: Version::Two,
            mac: Mac([0; 6]),
            savi: true,
            drop_unknown: true,
            per_port: 1,
            depth: 1,
            entries: ENTRIES_LEAST,
            bytes: FRAME_OCTETS_MOST as u64,
            gap: 1,
            test: TEST_MOST_MS,
            life: 1_000,
        }
    }

    /// Reads the line with this number, counted from 0, of those that the settings have, and sets what it says. The answer
    /// is false, and nothing has changed, where the line may not stand there behind those that were read before.
    pub fn read(&mut self, number: usize, line: &[u8]) -> bool
        requires number { number < 11 }
        requires settings { AreSettings self.old }
        ensures read { result ≡ true → IsRead number line.now self.old self.new }
        ensures bad { result ≡ false → IsNotNext number line.now self.old }
        ensures same { result ≡ false → self.new ≡ self.old }
    {
        match number {
            0 => self.read_version(line),
            1 => self.read_mac(line),
            2 => self.read_savi(line),
            3 => self.read_unknown(line),
            4 => self.read_per_port(line),
            5 => self.read_depth(line),
            6 => self.read_entries(line),
            7 => self.read_bytes(line),
            8 => self.read_gap(line),
            9 => self.read_test(line),
            _ => self.read_life(line),
        }
    }

    fn read_version(&mut self, line: &[u8]) -> bool
        requires { AreSettings self.old }
        ensures read { result ≡ true → IsRead 0 line.now self.old self.new }
        ensures bad { result ≡ false → IsNotNext 0 line.now self.old }
        ensures same { result ≡ false → self.new ≡ self.old }
    {
        match read_version_line(line) {
            Some(version) => {
                self.version = version;
                true
            }
            None => false,
        }
    }

    fn read_mac(&mut self, line: &[u8]) -> bool
        requires { AreSettings self.old }
        ensures read { result ≡ true → IsRead 1 line.now self.old self.new }
        ensures bad { result ≡ false → IsNotNext 1 line.now self.old }
        ensures same { result ≡ false → self.new ≡ self.old }
    {
        match read_mac_line(line) {
            Some(mac) => {
                if mac.is_group() {
                    return false;
                }
                know_octets(mac);
                self.mac = mac;
                true
            }
            None => false,
        }
    }

    fn read_savi(&mut self, line: &[u8]) -> bool
        requires { AreSettings self.old }
        ensures read { result ≡ true → IsRead 2 line.now self.old self.new }
        ensures bad { result ≡ false → IsNotNext 2 line.now self.old }
        ensures same { result ≡ false → self.new ≡ self.old }
    {
        match read_savi_line(line) {
            Some(savi) => {
                self.savi = savi;
                true
            }
            None => false,
        }
    }

    fn read_unknown(&mut self, line: &[u8]) -> bool
        requires { AreSettings self.old }
        ensures read { result ≡ true → IsRead 3 line.now self.old self.new }
        ensures bad { result ≡ false → IsNotNext 3 line.now self.old }
        ensures same { result ≡ false → self.new ≡ self.old }
    {
        match read_unknown_line(line) {
            Some(drop_unknown) => {
                self.drop_unknown = drop_unknown;
                true
            }
            None => false,
        }
    }

    fn read_per_port(&mut self, line: &[u8]) -> bool
        requires { AreSettings self.old }
        ensures read { result ≡ true → IsRead 4 line.now self.old self.new }
        ensures bad { result ≡ false → IsNotNext 4 line.now self.old }
        ensures same { result ≡ false → self.new ≡ self.old }
    {
        match read_within(line, "per_port", 1, PER_PORT_MOST as u64) {
            Some(per_port) => {
                self.per_port = per_port as u32;
                true
            }
            None => false,
        }
    }

    fn read_depth(&mut self, line: &[u8]) -> bool
        requires { AreSettings self.old }
        ensures read { result ≡ true → IsRead 5 line.now self.old self.new }
        ensures bad { result ≡ false → IsNotNext 5 line.now self.old }
        ensures same { result ≡ false → self.new ≡ self.old }
    {
        match read_within(line, "depth", 1, DEPTH_MOST as u64) {
            Some(depth) => {
                self.depth = depth as u32;
                true
            }
            None => false,
        }
    }

    fn read_entries(&mut self, line: &[u8]) -> bool
        requires { AreSettings self.old }
        ensures read { result ≡ true → IsRead 6 line.now self.old self.new }
        ensures bad { result ≡ false → IsNotNext 6 line.now self.old }
        ensures same { result ≡ false → self.new ≡ self.old }
    {
        match read_within(line, "entries", ENTRIES_LEAST, ENTRIES_MOST) {
            Some(entries) => {
                self.entries = entries;
                true
            }
            None => false,
        }
    }

    fn read_bytes(&mut self, line: &[u8]) -> bool
        requires { AreSettings self.old }
        ensures read { result ≡ true → IsRead 7 line.now self.old self.new }
        ensures bad { result ≡ false → IsNotNext 7 line.now self.old }
        ensures same { result ≡ false → self.new ≡ self.old }
    {
        match read_within(line, "bytes", FRAME_OCTETS_MOST as u64, BYTES_MOST) {
            Some(bytes) => {
                self.bytes = bytes;
                true
            }
            None => false,
        }
    }

    // The gap is below the longest test; the test's own line comes behind.
    fn read_gap(&mut self, line: &[u8]) -> bool
        requires { AreSettings self.old }
        ensures read { result ≡ true → IsRead 8 line.now self.old self.new }
        ensures bad { result ≡ false → IsNotNext 8 line.now self.old }
        ensures same { result ≡ false → self.new ≡ self.old }
    {
        match read_within(line, "gap", 1, GAP_MOST_MS) {
            Some(gap) => {
                self.gap = gap;
                self.test = TEST_MOST_MS;
                true
            }
            None => false,
        }
    }

    fn read_test(&mut self, line: &[u8]) -> bool
        requires { AreSettings self.old }
        ensures read { result ≡ true → IsRead 9 line.now self.old self.new }
        ensures bad { result ≡ false → IsNotNext 9 line.now self.old }
        ensures same { result ≡ false → self.new ≡ self.old }
    {
        match read_within(line, "test", TEST_LEAST_MS, TEST_MOST_MS) {
            Some(test) => {
                if test <= self.gap {
                    return false;
                }
                self.test = test;
                true
            }
            None => false,
        }
    }

    fn read_life(&mut self, line: &[u8]) -> bool
        requires { AreSettings self.old }
        ensures read { result ≡ true → IsRead 10 line.now self.old self.new }
        ensures bad { result ≡ false → IsNotNext 10 line.now self.old }
        ensures same { result ≡ false → self.new ≡ self.old }
    {
        match read_within(line, "binding", 1_000, 1_000 * LIFE_MOST_S) {
            Some(life) => {
                if life % 1_000 != 0 {
                    return false;
                }
                self.life = life;
                true
            }
            None => false,
        }
    }
}

// The value of a setting of this name that is within these limits.
fn read_within(line: &[u8], name: &str, least: u64, most: u64) -> Option<u64>
    ensures read { IfSome result (λ value. (line.now ≡ joined (setting name.now value)) × IsWithin least most value) }
    ensures whole { (value : ℕ) → value < 2 ^ 64 → IsWithin least most value → line.now ≡ joined (setting name.now value) → result ≡ Some value }
{
    match read_setting(line, name) {
        Some(value) if least <= value && value <= most => Some(value),
        _ => None,
    }
}

// Does nothing: states for a proof what the type of a MAC address says.
fn know_octets(mac: Mac)
    ensures { HasSixOctets mac }
{}
