// What the lines of entries and segments come to. Each function does nothing: its contract is the law.

ghost use Rattle.std.specs.Prelude.{◌≡◌, ◌^◌, ◌<◌, ◌++◌, ℕ, List};
ghost use Rattle.hex.specs.Hex.{IsBytes};
ghost use Rattle.hist_store.specs.Rows.{Row};
ghost use Rattle.hist_store.specs.LineTexts.{FitsLine, line_text};
ghost use Rattle.hist_store.specs.JournalTexts.{entry_lines, segment_lines};
ghost use Rattle.hist_store.specs.EntryLines.{IsInRange, SaysEntry, entry_said, row_said};

/// Law: the line that is written of an entry says this entry, wherever its octets are kept, if its numbers fit their
/// fields.
pub fn a_written_line_says_its_entry()
    ensures { (n : ℕ) (row : Row) → n < 2 ^ 64 → IsInRange (entry_said row.entry) → IsBytes row.octets → FitsLine row
        → SaysEntry (line_text n row) n (row_said row) }
{}

/// Law: a line says one entry at most.
pub fn a_line_says_one_entry()
    ensures number { (line : List ℕ) (n m : ℕ) (row other : Row) → SaysEntry line n row → SaysEntry line m other → n ≡ m }
    ensures row { (line : List ℕ) (n m : ℕ) (row other : Row) → SaysEntry line n row → SaysEntry line m other → row ≡ other }
{}

/// Law: a line that says an entry is the one that is written of it: an entry is said in one spelling.
pub fn an_entry_has_one_line()
    ensures { (line : List ℕ) (n : ℕ) (row : Row) → SaysEntry line n row → line ≡ line_text n row }
{}

/// Law: the lines of a journal are parted into segments in one way, where what each goes on from is known: a segment ends at
/// the first line of two fields behind its `begin`.
pub fn a_segment_ends_at_one_line()
    ensures { (base rest more : List (List (List ℕ))) (rows others : List Row)
        → segment_lines (record { base_lines = base; rows = rows }) ++ rest ≡ segment_lines (record { base_lines = base; rows = others }) ++ more
        → (entry_lines 0 rows ≡ entry_lines 0 others) × (rest ≡ more) }
{}
