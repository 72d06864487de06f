//! Which line is `quit`.

ghost use Rattle.std.specs.Prelude.{◌≡◌};
ghost use Rattle.cli_lang.specs.CommandOf.{command_of};
ghost use Rattle.savi_history.specs.ControlInputs.{is_quit_command};

use cli_lang::{Command, command};

/// Whether a line is `quit`, behind which no line of control is read. O(n) in its octets.
pub fn is_quit(line: &[u8]) -> bool
    ensures { result ≡ is_quit_command (command_of line.now) }
{
    matches!(command(line), Ok(Command::Quit))
}
