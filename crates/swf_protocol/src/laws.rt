// What holds of commands and their lines.
ghost use Rattle.std.specs.Prelude.{◌≡◌, ℕ, List, Ok, Err};
ghost use Rattle.swf_protocol.specs.Line.{command_of};
ghost use Rattle.swf_protocol.specs.Spelled.{IsSpeakable, command_text};
ghost use Rattle.swf_protocol.specs.Words.{joined, words_of};
ghost use Rattle.swf_protocol.specs.declared.command.Command.{Command as TheCommand};
ghost use Rattle.swf_protocol.specs.declared.command.CommandFault.TheVariants.{OutOfMemory};

/// A line is its words joined by single spaces. A command is read again from the line that it is written as, and no line spells the
/// want of memory.
pub fn command_laws()
    ensures words { (line : List ℕ) → joined (words_of line) ≡ line }
    ensures again { (c : TheCommand) → IsSpeakable c → command_of (command_text c) ≡ Ok c }
    ensures never { (line : List ℕ) → command_of line ≡ Err OutOfMemory → ⊥ }
{}
