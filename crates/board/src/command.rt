// One command of the board: its first word, and its fields.
ghost use Rattle.std.specs.Prelude.{◌≡◌, ℕ, List, ◌++◌, MatchOption, ◌≢◌};
ghost use Rattle.board.specs.declared.command.Command.{Command};
ghost use Rattle.board.specs.declared.command.Word.{Word};
ghost use Rattle.board.specs.Commands.{Spells, Begins, InFields, spelled, headed};

use crate::field::{RankingName, SourceName, after, asking, number, numbers, opening, pinning};

// Its numbers stand apart, as the planner's calls take them: a time and a step need not be those of a cell.
#[derive(Clone, Copy)]
pub enum Command<'a> {
    Open {
        filtered: bool,
        source: SourceName<'a>,
    },
    Ask {
        times: u32,
        ranking: RankingName,
    },
    Pin {
        time: u32,
        step: u32,
        taken: bool,
    },
    Unpin {
        time: u32,
        step: u32,
    },
    Run {
        choices: u32,
    },
    Forced {
        time: u32,
        step: u32,
    },
    Path {
        place: u32,
    },
    Report,
    Kept {
        one: u32,
        other: u32,
    },
}

// The first word of a command.
#[derive(Clone, Copy)]
pub enum Word {
    Open,
    Ask,
    Pin,
    Unpin,
    Run,
    Forced,
    Path,
    Report,
    Kept,
}

impl Word {
    const ALL: [Word; 9] = [
        Word::Open,
        Word::Ask,
        Word::Pin,
        Word::Unpin,
        Word::Run,
        Word::Forced,
        Word::Path,
        Word::Report,
        Word::Kept,
    ];

    // How it is spelled, with its blank.
    fn bytes(self) -> &'static [u8]
        ensures { result.now ≡ spelled self }
    {
        match self {
            Word::Open => b"open ",
            Word::Ask => b"ask ",
            Word::Pin => b"pin ",
            Word::Unpin => b"unpin ",
            Word::Run => b"run ",
            Word::Forced => b"forced ",
            Word::Path => b"path ",
            Word::Report => b"report",
            Word::Kept => b"kept ",
        }
    }
}

// The command of this first word with these fields.
fn with_fields<'a>(word: Word, fields: &'a [u8]) -> Option<Command<'a>>
    ensures { MatchOption result ((c : Command) → InFields c word fields.now → ⊥) (λ c. InFields c word fields.now) }
{
    match word {
        Word::Open => {
            opening(fields).map(|(filtered, source)| Command::Open { filtered, source })
        }
        Word::Ask => asking(fields).map(|(times, ranking)| Command::Ask { times, ranking }),
        Word::Pin => pinning(fields).map(|(time, step, taken)| Command::Pin { time, step, taken }),
        Word::Unpin => numbers(fields).map(|(time, step)| Command::Unpin { time, step }),
        Word::Run => number(fields).map(|choices| Command::Run { choices }),
        Word::Forced => numbers(fields).map(|(time, step)| Command::Forced { time, step }),
        Word::Path => number(fields).map(|place| Command::Path { place }),
        Word::Report => fields.is_empty().then_some(Command::Report),
        Word::Kept => numbers(fields).map(|(one, other)| Command::Kept { one, other }),
    }
}

// The command of this first word that a line spells, if it spells one.
fn command_of<'a>(line: &'a [u8], word: Word) -> Option<Command<'a>>
    ensures { MatchOption result ((c : Command) → Begins c word line.now → ⊥) (λ c. Begins c word line.now) }
{
    let fields = after(line, word.bytes())?;
    with_fields(word, fields)
}

// The command that a line spells, if it spells one.
pub fn parse<'a>(line: &'a [u8]) -> Option<Command<'a>>
    ensures { MatchOption result ((c : Command) → Spells c line.now → ⊥) (λ c. Spells c line.now) }
{
    // As a `find_map` it did not close: the shelf has no lemma on what that finds.
    for word in &Word::ALL {
        if let Some(command) = command_of(line, *word) {
            return Some(command);
        }
    }
    None
}
