//! What the answers of a check come to. Each function does nothing: its contract is the law.

ghost use Rattle.journal_check.specs.Laws.{GoodIsJournal, HasOneAnswer, HasOneHistory, JournalIsGood, JournalsLackNames, LegalIsSaid, WrittenIsGood};

use savi_segments::segments_leave_what_their_rows_leave;

/// Law: no octets have two answers.
pub fn octets_have_one_answer()
    ensures { HasOneAnswer }
{
    segments_leave_what_their_rows_leave();
}

/// Law: octets with an answer behind a header have no other header, and one history in front of what the answer is of.
pub fn octets_have_one_history()
    ensures { HasOneHistory }
{
    segments_leave_what_their_rows_leave();
}

/// Law: octets that are good are the journal of a whole session, from the start of a switch to its end.
pub fn what_is_good_is_a_journal()
    ensures { GoodIsJournal }
{}

/// Law: the journal of a whole session, in at most 2^62 octets, is good.
pub fn a_journal_is_good()
    ensures { JournalIsGood }
{}

/// Law: the journal of a plan is that of the plan without its names.
pub fn journals_lack_names()
    ensures { JournalsLackNames }
{}

/// Law: each number of a legal history fits its field of the journal, whatever the history goes on from.
pub fn legal_numbers_fit_their_fields()
    ensures { LegalIsSaid }
{}

/// Law: the journal that is written of a whole session is good, whatever the names of its plan.
pub fn a_written_journal_is_good()
    ensures { WrittenIsGood }
{}
