// The words of `serve` and of `drill`, and the numbers that they tell.
ghost use Rattle.std.specs.Prelude.{◌≡◌, ℕ, ◌<◌, ◌^◌, ◌∷◌, [], IfSome, IfNone, codes, decimal, map};
ghost use Rattle.std.specs.Int.{IsInRange};
ghost use Rattle.command_words.specs.declared.service_words.ServeWords.{ServeWords as ServeValue};
ghost use Rattle.command_words.specs.ServeWords.{AsksToDrill, AsksToServe};

use itoa::Buffer;

/// What `serve` is asked for.
#[derive(Clone, Copy)]
pub struct ServeWords {
    /// The port of the feeds.
    pub feed_port: u16,
    /// The port of the requests.
    pub http_port: u16,
    /// How many workers each port has, from 1 to 64.
    pub workers: u32,
    /// After how many connections each worker ends; with 0 it never does.
    pub links: u32,
}

/// The numbers of the words `serve FEEDPORT HTTPPORT WORKERS LINKS`. It is `None` exactly where the words aren't of
/// this form: a number is of one to nine decimal digits, without a zero in front of others, a port is from 1 to 65,535,
/// and there are 1 to 64 workers. It takes no memory.
pub fn serve_words(words: &[&str]) -> Option<ServeWords>
    ensures found { IfSome result (AsksToServe (map (λ w. w.now) words.now)) }
    ensures none { IfNone result ((asked : ServeValue) → AsksToServe (map (λ w. w.now) words.now) asked → ⊥) }
{
    match words {
        ["serve", feed_port, http_port, workers, links] => {
            served(feed_port, http_port, workers, links)
        }
        _ => None,
    }
}

// The numbers of the words behind `serve`.
fn served(feed_port: &str, http_port: &str, workers: &str, links: &str) -> Option<ServeWords>
    ensures found { IfSome result
        (AsksToServe (codes "serve" ∷ feed_port.now ∷ http_port.now ∷ workers.now ∷ links.now ∷ [])) }
    ensures none { IfNone result ((asked : ServeValue)
        → AsksToServe (codes "serve" ∷ feed_port.now ∷ http_port.now ∷ workers.now ∷ links.now ∷ []) asked → ⊥) }
{
    Some(ServeWords {
        feed_port: number(feed_port, 1, 65_535)? as u16,
        http_port: number(http_port, 1, 65_535)? as u16,
        workers: number(workers, 1, 64)?,
        links: number(links, 0, 999_999_999)?,
    })
}

/// The number of the words `drill N`, from 1 to 200. It is `None` exactly where the words aren't of this
/// form. It takes no memory.
pub fn drill_words(words: &[&str]) -> Option<u32>
    ensures found { IfSome result (AsksToDrill (map (λ w. w.now) words.now)) }
    ensures none { IfNone result ((hours : ℕ) → AsksToDrill (map (λ w. w.now) words.now) hours → ⊥) }
{
    match words {
        ["drill", hours] => number(hours, 1, 200),
        _ => None,
    }
}

// The number in this range that the word is in decimal, without a sign or a zero in front of other digits.
fn number(word: &str, least: u32, most: u32) -> Option<u32>
    ensures found { IfSome result (λ n. (word.now ≡ decimal n) × IsInRange least most n) }
    ensures none { IfNone result ((n : ℕ) → word.now ≡ decimal n → IsInRange least most n → ⊥) }
{
    let Ok(number) = word.parse::<u32>() else {
        return None;
    };
    let mut digits = Buffer::new();
    if number < least || number > most || digits.format(number) != word {
        return None;
    }
    Some(number)
}
