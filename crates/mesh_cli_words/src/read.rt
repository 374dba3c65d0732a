// The line that words ask for.
ghost use Rattle.std.specs.Prelude.{◌≡◌, ◌↔◌, map, IfOk, IsErrOf, IsTrue, IsUtf8, MatchOption};
ghost use Rattle.std.specs.List.{All};
ghost use Rattle.clap.specs.Kinds.{FailsBy};
ghost use Rattle.clap.specs.Faults.{fault_of};
ghost use Rattle.clap.specs.Simple.{HasMatchesOf, subcommand_rows_of};
ghost use Rattle.clap.specs.Walk.{rows_of};
ghost use Rattle.clap.specs.Matches.{found_of};
ghost use Rattle.mesh_cli_words.specs.declared.line.Line.{Line};
ghost use Rattle.mesh_cli_words.specs.declared.line.UsageFault.TheVariants as fault;
ghost use Rattle.mesh_cli_words.specs.Lines.{IsLine, IsLineOf, IsRuled};
ghost use Rattle.mesh_cli_words.specs.Words.{mesh_app};

use crate::apps::commands;
use crate::commands::command_given;
use crate::given::{given, text_given};
use crate::line::{Line, UsageFault};
use clap::error::ErrorKind;
use clap::{ArgMatches, Error};
use mesh_base_values::Str;
use mesh_cli_values::options::moment_named;
use mesh_list::Memory;
use std::alloc::Global;

/// A word as a text, and none where it isn't UTF-8.
fn text_of(word: &Str) -> Option<&str>
    ensures { MatchOption result (¬ IsUtf8 word.now) (λ text. IsUtf8 word.now × (text.now ≡ word.now)) }
{
    match std::str::from_utf8(word.as_slice()) {
        Ok(text) => Some(text),
        Err(_) => None,
    }
}

/// The words as texts, and none where one of them isn't UTF-8.
fn texts<'a>(alloc: Global, words: &'a [Str]) -> Result<Option<Vec<&'a str>>, Memory>
    ensures { IfOk result (λ made. MatchOption made (¬ All IsUtf8 words.now) (λ texts. All IsUtf8 words.now × (map (λ s. s.now) texts.items ≡ words.now))) }
{
    let mut made = Vec::new(alloc);
    for word in words {
        match text_of(word) {
            Some(text) => made.push(text)?,
            None => return Ok(None),
        }
    }
    Ok(Some(made))
}

fn parse<'a>(alloc: Global, words: &'a [&'a str]) -> Result<ArgMatches<'a>, Error>
    ensures fails { FailsBy (fault_of mesh_app (map (λ s. s.now) words.now)) result }
    ensures matches { IfOk result (λ m. HasMatchesOf mesh_app (map (λ s. s.now) words.now) m) }
{
    let command = commands(alloc)?;
    command.try_get_matches_from(words)
}

/// What was given in front of a command, and the command.
fn line_of(alloc: Global, m: &ArgMatches<'_>) -> Result<Line, UsageFault>
    ensures ok { IfOk result (IsLineOf (rows_of (found_of m.now)) (subcommand_rows_of m.now)) }
    ensures usage { IsErrOf result fault.Usage → (line : Line) → ¬ IsLineOf (rows_of (found_of m.now)) (subcommand_rows_of m.now) line }
{
    let Some((name, sub)) = m.subcommand() else {
        return Err(UsageFault::Usage);
    };
    let Some(moment) = moment_named(given(sub, "execution-time")) else {
        return Err(UsageFault::Usage);
    };
    let paths = text_given(alloc, m, "paths")?;
    let warehouse = text_given(alloc, m, "warehouse")?;
    match command_given(alloc, moment, name, sub)? {
        None => Err(UsageFault::Usage),
        Some(command) => Ok(Line {
            paths,
            warehouse,
            command,
        }),
    }
}

/// The line that texts ask for.
fn line_named(alloc: Global, texts: &[&str]) -> Result<Line, UsageFault>
    ensures ok { IfOk result (IsRuled (map (λ s. s.now) texts.now)) }
    ensures usage { IsErrOf result fault.Usage → (line : Line) → ¬ IsRuled (map (λ s. s.now) texts.now) line }
{
    match parse(alloc, texts) {
        Ok(m) => line_of(alloc, &m),
        Err(e) if e.kind() == ErrorKind::OutOfMemory => Err(UsageFault::Memory),
        Err(_) => Err(UsageFault::Usage),
    }
}

/// The command line that words ask for, behind the program's own name.
pub fn read_words(alloc: Global, words: &[Str]) -> Result<Line, UsageFault>
    ensures ok { IfOk result (IsLine words.now) }
    ensures usage { IsErrOf result fault.Usage → (line : Line) → ¬ IsLine words.now line }
{
    match texts(alloc, words)? {
        None => Err(UsageFault::Usage),
        Some(texts) => line_named(alloc, texts.as_slice()),
    }
}
