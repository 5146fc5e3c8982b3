//! What the words of a call ask for.
ghost use Rattle.std.specs.Prelude.{◌≡◌};
ghost use Rattle.life_stack.specs.Program.Words.{command};

/// What can be asked for.
#[derive(Clone, Copy, Debug)]
pub enum Command {
    /// To drive the scenario that the source gives.
    Drive,
}

/// What the words ask for, if anything. It takes no memory.
pub fn command_of(words: &[String]) -> Option<Command>
    ensures { result ≡ command words.now }
{
    match words {
        [word] if word.as_str() == "drive" => Some(Command::Drive),
        _ => None,
    }
}
