// The words of the command line, and what they ask for.
ghost use Rattle.std.specs.Prelude.{◌≡◌, ℕ, ◌∷◌, [], IfSome, IfNone, map};
ghost use Rattle.std.specs.List.{list_any};
ghost use Rattle.series_model.specs.declared.sample.Query.{Query};
ghost use Rattle.command_words.specs.declared.command.Command.{Command as CommandValue};
ghost use Rattle.command_words.specs.declared.service_words.ServeWords.{ServeWords as Numbers};
ghost use Rattle.command_words.specs.Command.{IsInterval, AsksFor, IsCommand, IsFaulty, has_dash};
ghost use Rattle.command_words.specs.ServeWords.{AsksToDrill, AsksToServe};

use crate::service_words::{ServeWords, drill_words, serve_words};
use arch_time::parse_iso;
use drill_feed::Drill;
use series_model::Query;

/// What the words ask for.
#[derive(Clone, Copy)]
pub enum Command<'a> {
    /// `extract FROM TO`
    Extract { query: Query },
    /// `drill N`
    Drill(Drill),
    /// A command over the archive.
    OverStore(StoreCommand<'a>),
}

/// What the words ask of the archive.
#[derive(Clone, Copy)]
pub enum StoreCommand<'a> {
    /// `ingest`
    Ingest,
    /// `get NAME FROM TO`
    Get { name: &'a str, query: Query },
    /// `etl`
    Etl,
    /// `status`
    Status,
    /// `check`
    Check,
    /// `serve FEEDPORT HTTPPORT WORKERS LINKS`
    Serve(ServeWords),
    /// `adopt`
    Adopt,
}

/// The command of these words. A word that begins with `-` is of none.
pub fn command_of<'a>(words: &[&'a str]) -> Option<Command<'a>>
    ensures found { IfSome result (IsCommand (map (λ w. w.now) words.now)) }
    ensures none { IfNone result (IsFaulty (map (λ w. w.now) words.now)) }
{
    if have_dash(words) {
        return None;
    }
    asked_for(words)
}

// Whether a word begins with `-`.
fn have_dash(words: &[&str]) -> bool
    ensures { result ≡ list_any (λ w. has_dash w.now) words.now }
{
    words.iter().any(|word| has_dash(word))
}

// Whether the word begins with `-`.
fn has_dash(word: &str) -> bool
    ensures { result ≡ has_dash word.now }
{
    match word.as_bytes() {
        [first, ..] => *first == b'-',
        [] => false,
    }
}

// The command that these words ask for.
fn asked_for<'a>(words: &[&'a str]) -> Option<Command<'a>>
    ensures found { IfSome result (λ c. AsksFor c (map (λ w. w.now) words.now)) }
    ensures none { IfNone result ((c : CommandValue) → AsksFor c (map (λ w. w.now) words.now) → ⊥) }
{
    match words {
        [word] => bare_command(word),
        [word, from, to] => extract_command(word, from, to),
        [word, name, from, to] => get_command(word, name, from, to),
        [_, _] => drill_command(words),
        _ => serve_command(words),
    }
}

// The command that drills, where the words are of it.
fn drill_command<'a>(words: &[&str]) -> Option<Command<'a>>
    ensures found { IfSome result (λ c. AsksFor c (map (λ w. w.now) words.now)) }
    ensures none { IfNone result ((hours : ℕ) → AsksToDrill (map (λ w. w.now) words.now) hours → ⊥) }
{
    Some(Command::Drill(Drill::new(drill_words(words)?)?))
}

// The command that serves, where the words are of it.
fn serve_command<'a>(words: &[&str]) -> Option<Command<'a>>
    ensures found { IfSome result (λ c. AsksFor c (map (λ w. w.now) words.now)) }
    ensures none { IfNone result ((numbers : Numbers) → AsksToServe (map (λ w. w.now) words.now) numbers → ⊥) }
{
    match serve_words(words) {
        Some(numbers) => Some(Command::OverStore(StoreCommand::Serve(numbers))),
        None => None,
    }
}

// The command of a word that stands alone.
fn bare_command<'a>(word: &str) -> Option<Command<'a>>
    ensures found { IfSome result (λ c. AsksFor c (word.now ∷ [])) }
    ensures none { IfNone result ((c : CommandValue) → AsksFor c (word.now ∷ []) → ⊥) }
{
    match word {
        "ingest" => Some(Command::OverStore(StoreCommand::Ingest)),
        "etl" => Some(Command::OverStore(StoreCommand::Etl)),
        "status" => Some(Command::OverStore(StoreCommand::Status)),
        "check" => Some(Command::OverStore(StoreCommand::Check)),
        "adopt" => Some(Command::OverStore(StoreCommand::Adopt)),
        _ => None,
    }
}

// The command of a word and the ends of an interval.
fn extract_command<'a>(word: &str, from: &str, to: &str) -> Option<Command<'a>>
    ensures found { IfSome result (λ c. AsksFor c (word.now ∷ from.now ∷ to.now ∷ [])) }
    ensures none { IfNone result ((c : CommandValue) → AsksFor c (word.now ∷ from.now ∷ to.now ∷ []) → ⊥) }
{
    if word != "extract" {
        return None;
    }
    let query = interval(from, to)?;
    Some(Command::Extract { query })
}

// The command of a word, a name and the ends of an interval.
fn get_command<'a>(word: &str, name: &'a str, from: &str, to: &str) -> Option<Command<'a>>
    ensures found { IfSome result (λ c. AsksFor c (word.now ∷ name.now ∷ from.now ∷ to.now ∷ [])) }
    ensures none { IfNone result ((c : CommandValue) → AsksFor c (word.now ∷ name.now ∷ from.now ∷ to.now ∷ []) → ⊥) }
{
    if word != "get" {
        return None;
    }
    let query = interval(from, to)?;
    Some(Command::OverStore(StoreCommand::Get { name, query }))
}

// The interval between two moments.
fn interval(from: &str, to: &str) -> Option<Query>
    ensures found { IfSome result (IsInterval from.now to.now) }
    ensures none { IfNone result ((query : Query) → IsInterval from.now to.now query → ⊥) }
{
    let Ok(from) = parse_iso(from.as_bytes()) else {
        return None;
    };
    let Ok(to) = parse_iso(to.as_bytes()) else {
        return None;
    };
    Some(Query { from, to })
}
