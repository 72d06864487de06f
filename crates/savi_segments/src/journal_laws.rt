// The law on journals. The function does nothing: its contract is the law.

ghost use Rattle.std.specs.Prelude.{ℕ, List};
ghost use Rattle.hist_store.specs.JournalTexts.{address_text};
ghost use Rattle.savi_history.specs.Journals.{IsAddressText};
ghost use Rattle.savi_segments.specs.Journals.{IsJournalOfOne};

use savi_history::written_addresses_are_told_apart;

/// A journal tells the history and how it is parted into segments: no text stands for two legal lists of segments from the
/// start of a switch, nor for two plans that differ in more than the names of inputs and outputs; and of one segment a text
/// of version 1 stands for the same. It holds with addresses written as they are, after RFC 5952, and for each way to write
/// those of prefixes that gives no two of them the same text, and in which there is neither a space, a control character nor
/// a '/'.
pub fn journals_tell_one_history()
    ensures written { IsJournalOfOne address_text }
    ensures every { (text_of : ℕ → List ℕ) → IsAddressText text_of → IsJournalOfOne text_of }
{
    written_addresses_are_told_apart();
}
