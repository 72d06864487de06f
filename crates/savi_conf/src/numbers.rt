//! The numbers of a configuration, and their ranges.
ghost use Rattle.std.specs.Prelude.{◌≡◌, ◌↔◌, ℕ, pos, IsTrue};
ghost use Rattle.savi_conf.specs.Documents.{integer_or};
ghost use Rattle.savi_conf.specs.Requirements.{HasTimes, IsBetween, gap_in, life_in, test_in};
ghost use Rattle.toml.specs.View.{table_view};

use crate::document::integer_at;
use savi_kinds::{GAP_MOST_MS, LIFE_MOST_S, TEST_LEAST_MS, TEST_MOST_MS};
use toml::Table;

// What stands for a key that isn't there.
pub(crate) const PER_PORT_DEFAULT: i64 = 32;

pub(crate) const DEPTH_DEFAULT: i64 = 256;

pub(crate) const ENTRIES_DEFAULT: i64 = 262_144;

pub(crate) const BYTES_DEFAULT: i64 = 67_108_864;

pub(crate) const GAP_DEFAULT_MS: i64 = 250;

pub(crate) const TEST_DEFAULT_MS: i64 = 500;

pub(crate) const LIFE_DEFAULT_S: i64 = 300;

// The integer at a key, or the default.
pub(crate) fn integer_or(table: &Table, key: &str, default: i64) -> i64
    ensures { result ≡ integer_or key.now default (table_view table.now) }
{
    integer_at(table, key).unwrap_or(default)
}

// Whether the value is from the least to the most.
pub(crate) fn is_between(least: u64, most: u64, value: i64) -> bool
    ensures { IsTrue result ↔ IsBetween least most value }
{
    match u64::try_from(value) {
        Ok(value) => least <= value && value <= most,
        Err(_) => false,
    }
}

// The wait between probes, in ms.
pub(crate) fn gap(document: &Table) -> i64
    ensures { result ≡ gap_in (table_view document.now) }
{
    integer_or(document, "probe_gap_ms", GAP_DEFAULT_MS)
}

// How long an address is tested, in ms.
pub(crate) fn test(document: &Table) -> i64
    ensures { result ≡ test_in (table_view document.now) }
{
    integer_or(document, "test_ms", TEST_DEFAULT_MS)
}

// How long a binding lives, in s.
pub(crate) fn life(document: &Table) -> i64
    ensures { result ≡ life_in (table_view document.now) }
{
    integer_or(document, "binding_s", LIFE_DEFAULT_S)
}

// Whether the times are in their ranges, and the gap is below the test.
pub(crate) fn has_times(document: &Table) -> bool
    ensures { IsTrue result ↔ HasTimes (table_view document.now) }
{
    is_between(1, GAP_MOST_MS, gap(document))
        && is_between(TEST_LEAST_MS, TEST_MOST_MS, test(document))
        && gap(document) < test(document)
        && is_between(1, LIFE_MOST_S, life(document))
}
