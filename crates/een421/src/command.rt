use crate::disc::Make;
use crate::options::number;

// What the arguments ask for.
#[derive(Drop)]
pub(crate) enum Command<'a> {
    New(&'a str),
    Show(&'a str),
    Copy(&'a str, &'a str),
    Disc(Make, &'a [String]),
    Help,
}

// What the words behind `card` ask for.
fn card_command<'a>(words: &'a [String]) -> Option<Command<'a>> {
    match words {
        [verb, file] => match verb.as_str() {
            "new" => Some(Command::New(file.as_str())),
            "show" => Some(Command::Show(file.as_str())),
            _ => None,
        },
        [verb, from, to] => match verb.as_str() {
            "copy" => Some(Command::Copy(from.as_str(), to.as_str())),
            _ => None,
        },
        _ => None,
    }
}

// What the words behind `disc` ask for.
fn disc_command<'a>(words: &'a [String]) -> Option<Command<'a>> {
    let (make, rest) = words.split_first()?;
    match make.as_str() {
        "dense" => Some(Command::Disc(Make::Dense, rest)),
        "sparse" => {
            let (slots, rest) = rest.split_first()?;
            let slots = number(slots.as_str())?;
            Some(Command::Disc(Make::Sparse(slots), rest))
        }
        _ => None,
    }
}

// The command that the arguments spell, if they spell one.
pub(crate) fn parse<'a>(args: &'a [String]) -> Option<Command<'a>> {
    let (area, words) = args.split_first()?;
    match area.as_str() {
        "card" => card_command(words),
        "disc" => disc_command(words),
        "help" | "--help" => Some(Command::Help),
        _ => None,
    }
}
