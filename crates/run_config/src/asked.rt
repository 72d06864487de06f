//! The forms of the command line.

ghost use Rattle.std.specs.Prelude.{◌≡◌, ℕ, List, [], ◌∷◌, IfSome, IfNone, map};
ghost use Rattle.std.specs.String.{string_bytes};
ghost use Rattle.run_config.specs.Words.{Asks, IsGen, IsLearn};

use savi_kinds::read_decimal;

// The word that asks for a replay.
const REPLAY: &str = "replay";
// The word that asks for a live session.
const SERVE: &str = "serve";
// The word that asks for the check of a journal.
const CHECK: &str = "check";
// The word that asks for the audit of a journal.
const AUDIT: &str = "audit";
// The word that asks for a load.
const GENERATE: &str = "gen";
// The word that asks for the split of a capture.
const SPLIT: &str = "split";
// The word that asks for learning from captures.
const LEARN: &str = "learn";
// The greatest seed of a load.
const SEED_MOST: u64 = 2_147_483_647;
// The most packets of a load.
const FRAMES_MOST: u64 = 100_000;
// The longest window of learning, in ms.
const WINDOW_MOST: u64 = 3_600_000;

/// What the words of the command line ask for.
#[derive(Clone, Copy, PartialEq, Eq, Debug)]
pub enum Asked<'a> {
    /// A replay, by the name of its configuration: `replay FILE`.
    Replay(&'a str),
    /// A live session, by the name of its configuration: `serve FILE`.
    Serve(&'a str),
    /// The check of a journal, by the name of its file: `check FILE`.
    Check(&'a str),
    /// The audit of a journal, by the name of its file: `audit FILE`.
    Audit(&'a str),
    /// The replay of a load, by its seed and the number of its packets: `gen SEED FRAMES`.
    Generate { seed: u32, frames: u32 },
    /// The split of a capture, by the name of its file: `split FILE`.
    Split(&'a str),
    /// Learning from captures, by the name of a configuration and the length of the window in ms: `learn FILE MS`.
    Learn { file: &'a str, window: u64 },
    /// The words are none of the forms.
    NoForm,
}

/// What the words behind the program's name ask for. FILE is any word; SEED is at most 2,147,483,647, FRAMES at most 100,000
/// and MS at most 3,600,000, each in decimal without a leading zero.
pub fn asked_by(words: &[String]) -> Asked<'_>
    ensures { Asks (map string_bytes words.now) result }
{
    if let Some(file) = file_behind(REPLAY, words) {
        return Asked::Replay(file);
    }
    if let Some(file) = file_behind(SERVE, words) {
        return Asked::Serve(file);
    }
    if let Some(file) = file_behind(CHECK, words) {
        return Asked::Check(file);
    }
    if let Some(file) = file_behind(AUDIT, words) {
        return Asked::Audit(file);
    }
    if let Some(file) = file_behind(SPLIT, words) {
        return Asked::Split(file);
    }
    if let Some((file, window)) = learning_of(words) {
        return Asked::Learn { file, window };
    }
    match load_of(words) {
        Some((seed, frames)) => Asked::Generate { seed, frames },
        None => Asked::NoForm,
    }
}

// The name of a file, where the words are the one of a form and this name.
fn file_behind<'a>(form: &str, words: &'a [String]) -> Option<&'a str>
    ensures some { IfSome result (λ file. map string_bytes words.now ≡ form.now ∷ file.now ∷ []) }
    ensures none { IfNone result ((file : List ℕ) → map string_bytes words.now ≡ form.now ∷ file ∷ [] → ⊥) }
{
    match words {
        [first, file] if first.as_str() == form => Some(file.as_str()),
        _ => None,
    }
}

// The seed and the number of packets, where the words are `gen SEED FRAMES`.
fn load_of(words: &[String]) -> Option<(u32, u32)>
    ensures some { IfSome result (λ load. IsGen load.0 load.1 (map string_bytes words.now)) }
    ensures none { IfNone result ((seed frames : ℕ) → IsGen seed frames (map string_bytes words.now) → ⊥) }
{
    match words {
        [form, seed, frames] if form.as_str() == GENERATE => {
            let seed = read_decimal(seed.as_bytes(), SEED_MOST)?;
            let frames = read_decimal(frames.as_bytes(), FRAMES_MOST)?;
            Some((seed as u32, frames as u32))
        }
        _ => None,
    }
}

// The name of a configuration and the length of a window, where the words are `learn FILE MS`.
fn learning_of(words: &[String]) -> Option<(&str, u64)>
    ensures some { IfSome result (λ found. IsLearn found.0.now found.1 (map string_bytes words.now)) }
    ensures none { IfNone result ((file : List ℕ) (window : ℕ) → IsLearn file window (map string_bytes words.now) → ⊥) }
{
    match words {
        [form, file, window] if form.as_str() == LEARN => {
            let window = read_decimal(window.as_bytes(), WINDOW_MOST)?;
            Some((file.as_str(), window))
        }
        _ => None,
    }
}
