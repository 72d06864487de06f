//! What a configuration comes to. The function here does nothing: its contract is the law.

ghost use Rattle.savi_conf.specs.Laws.{TextHasOneAnswer};

/// Law: a text of a configuration says one plan, or has one fault.
pub fn a_text_has_one_answer()
    ensures { TextHasOneAnswer }
{}
