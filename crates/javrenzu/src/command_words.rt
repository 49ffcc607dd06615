// The words of the command.
use std::rt::Env;

#[derive(Clone, Copy)]
pub enum Word {
    Webs,
    Splits,
    Choose,
    RecoverLoops,
    RecoverGotoLoops,
    Passes,
    Dot,
    Check,
    Help,
}

// The word with this name.
fn named(name: &[u8]) -> Option<Word> {
    match name {
        b"webs" => Some(Word::Webs),
        b"splits" => Some(Word::Splits),
        b"choose" => Some(Word::Choose),
        b"recover_loops" => Some(Word::RecoverLoops),
        b"recover_goto_loops" => Some(Word::RecoverGotoLoops),
        b"passes" => Some(Word::Passes),
        b"dot" => Some(Word::Dot),
        b"check" => Some(Word::Check),
        b"--help" => Some(Word::Help),
        _ => None,
    }
}

// The word that the program was started with. None where there is no word, or one that has no meaning.
pub fn asked(rt: &impl Env) -> Option<Word> {
    // A word that is longer than this is longer than any of these.
    let mut name = [0u8; 32];
    let n = rt.arg(1, &mut name).ok()?;
    named(&name[..n])
}
