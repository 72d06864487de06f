ghost use Rattle.std.specs.Prelude.{◌≡◌, ℕ, Bool, false, List, ◌++◌, Result};
ghost use Rattle.std.specs.List.{join_with_byte};
ghost use Rattle.savi_kinds.specs.Characters.{space};
ghost use Rattle.cli_lang.specs.declared.kinds.Command.{Command};
ghost use Rattle.cli_lang.specs.declared.kinds.CmdFault.{CmdFault};
ghost use Rattle.cli_lang.specs.Words.{words_of};
ghost use Rattle.cli_lang.specs.Commands.{LineGives};
ghost use Rattle.cli_lang.specs.CommandOf.{command_of};
ghost use Rattle.cli_lang.specs.Arrivals.{Line, Input, Arrive};
ghost use Rattle.cli_lang.specs.Calls.{CallsGiveInput, CallsBeforeFault};

/// Law: a line comes to one answer.
pub fn a_line_has_one_answer()
    ensures { (line : List ℕ) (one other : Result Command CmdFault) → LineGives line one → LineGives line other → one ≡ other }
{}

/// Law: a line comes to the command, or to the fault, that `command_of` gives of it.
pub fn every_line_comes_to_its_command()
    ensures { (line : List ℕ) → LineGives line (command_of line) }
{}

/// Law: the words of a line with one space between each two are the line.
pub fn words_spell_their_line()
    ensures { (line : List ℕ) → join_with_byte space (words_of line) ≡ line }
{}

/// Law: every list of octets is some control input, live or not, seen to end or not, whatever its clock reads.
pub fn octets_arrive()
    ensures { (live seen : Bool) (readings octets : List ℕ) → (input : Input) × Arrive live seen readings octets input }
{}

/// Law: no list of octets, with the readings of a clock, is two control inputs.
pub fn octets_arrive_once()
    ensures { (live seen : Bool) (readings octets : List ℕ) (one other : Input) → Arrive live seen readings octets one → Arrive live seen readings octets other → one ≡ other }
{}

/// Law: the first octets of an input, where the last of them weren't seen to end it, hold the first of its lines.
pub fn front_arrives()
    ensures { (live seen : Bool) (readings octets more : List ℕ) (part whole : Input) → Arrive live false readings octets part → Arrive live seen readings (octets ++ more) whole → (later : List Line) × (whole.arrivals ≡ part.arrivals ++ later) }
{}

/// Law: call after call, a reader's answers are the lines of what its source had left, each in its turn, and then how the
/// input ends; in whatever pieces the source gives its octets, and as far as no read fails.
pub fn calls_give_input()
    ensures { CallsGiveInput }
{}

/// Law: the lines of a reader whose source failed at last are the lines of the octets that were given.
pub fn calls_before_fault()
    ensures { CallsBeforeFault }
{}
