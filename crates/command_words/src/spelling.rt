//! What holds of the words of commands.
ghost use Rattle.std.specs.Prelude.{◌≡◌, ℕ, List, Some};
ghost use Rattle.run_defs.specs.Limits.{LimitsFit};
ghost use Rattle.command_words.specs.Words.{command_of_words};
ghost use Rattle.command_words.specs.declared.words.Command.{Command};
ghost use Rattle.command_words.specs.Spelling.{IsSpelled};

/// The words of a command spell no other one, and the command of words is the one that they spell. Its limits fit a run.
pub fn words_spell_one_command()
    ensures reads { (words : List (List ℕ)) (command : Command (List ℕ)) → IsSpelled command words
        → command_of_words words ≡ Some command }
    ensures spells { (words : List (List ℕ)) (command : Command (List ℕ))
        → command_of_words words ≡ Some command → IsSpelled command words }
    ensures limits { (words : List (List ℕ)) (command : Command (List ℕ))
        → command_of_words words ≡ Some command → LimitsFit command.limits }
    ensures one { (words : List (List ℕ)) (command other : Command (List ℕ))
        → IsSpelled command words → IsSpelled other words → command ≡ other }
{}
