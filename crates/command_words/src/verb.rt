//! The verbs.
ghost use Rattle.command_words.specs.Verbs.{IsVerb};

/// What a command line begins with.
#[derive(Clone, Copy)]
pub enum Verb {
    Compile,
    Run,
    Dump,
    Big,
}

/// The verb that a word spells.
pub fn verb_of(word: &str) -> Option<Verb>
    ensures { IsVerb word.now result }
{
    if word == "compile" {
        return Some(Verb::Compile);
    }
    if word == "run" {
        return Some(Verb::Run);
    }
    if word == "dump" {
        return Some(Verb::Dump);
    }
    if word == "big" {
        return Some(Verb::Big);
    }
    None
}
