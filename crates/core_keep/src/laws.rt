// What the codes of rows, plans and histories come to. Each function does nothing: its contract is the law.

ghost use Rattle.std.specs.Prelude.{◌≡◌, ℕ, List, length};
ghost use Rattle.savi_kinds.specs.declared.plan.Plan.{Plan};
ghost use Rattle.hist_store.specs.Rows.{Row};
ghost use Rattle.checkpoint.specs.Columns.{Columns};
ghost use Rattle.table_lock.specs.Entries.{EntryList, StartsWith, mine};
ghost use Rattle.core_keep.specs.RowCodes.{row_by_code, row_code};
ghost use Rattle.core_keep.specs.PlanCodes.{plan_code};
ghost use Rattle.core_keep.specs.BaseCodes.{fixed_code};
ghost use Rattle.core_keep.specs.Pasts.{coded, decoded};
ghost use Rattle.core_keep.specs.Seen.{IsLater};

/// Law: a row is read again of its code, so no two rows have the same one.
pub fn a_code_says_one_row()
    ensures read { (row : Row) → row_by_code (row_code row) ≡ row }
    ensures one { (row other : Row) → row_code row ≡ row_code other → row ≡ other }
{}

/// Law: no two plans have the same code.
pub fn a_code_says_one_plan()
    ensures { (plan other : Plan) → plan_code plan ≡ plan_code other → plan ≡ other }
{}

/// Law: no two plans, with the columns of what a history goes on from, have the same code.
pub fn a_code_says_what_is_fixed()
    ensures { (plan other : Plan) (columns before : Columns) → fixed_code plan columns ≡ fixed_code other before
        → (plan ≡ other) × (columns ≡ before) }
{}

/// Law: a history is read again of its code, which has an entry for each row; so no two histories have the same one.
pub fn a_code_says_one_history()
    ensures read { (past : List Row) → decoded (coded past) ≡ past }
    ensures size { (past : List Row) → length (coded past) ≡ length past }
    ensures one { (past other : List Row) → coded past ≡ coded other → past ≡ other }
{}

/// Law: where a history begins with what a pass had seen, and has no further entry of that pass, it went on by rows of
/// others alone.
pub fn a_pass_knows_its_own()
    ensures { (pass : ℕ) (seen now : EntryList) → StartsWith now seen → mine pass now ≡ mine pass seen
        → IsLater pass (decoded seen) (decoded now) }
{}
