//! What the words of a row say of an alarm, by their form alone.

ghost use Rattle.std.specs.Prelude.{◌≡◌, IfSome};
ghost use Rattle.std.specs.Str.{bytes_eq};
ghost use Rattle.cpl_clock.specs.Alarm.{IsRegular};
ghost use Rattle.cpl_head.specs.Alarms.{alarm_words, every_words};

use cpl_base::{Text, number_between};
use cpl_clock::Alarm;

/// The greatest interval, and the latest first ring, in seconds.
const MOST_SECONDS: u64 = 1_000_000_000;

/// An alarm with its name.
#[derive(Debug, Drop)]
pub(crate) struct NamedAlarm {
    /// Its name.
    pub name: Text,
    /// When it rings.
    pub alarm: Alarm,
}

/// When an alarm rings, by the words behind its name: `every S from F` or `monthly`.
pub(crate) fn alarm_words(words: &[Text]) -> Option<Alarm>
    ensures value { result ≡ alarm_words words.now }
    ensures regular { IfSome result IsRegular }
{
    match words {
        [word] if is_word(word, b"monthly") => Some(Alarm::Monthly),
        [every, interval, from, first] if is_word(every, b"every") && is_word(from, b"from") => {
            every_words(interval.bytes(), first.bytes())
        }
        _ => None,
    }
}

/// An alarm by the words of its interval and of its first ring.
fn every_words(interval: &[u8], first: &[u8]) -> Option<Alarm>
    ensures value { result ≡ every_words interval.now first.now }
    ensures regular { IfSome result IsRegular }
{
    let interval = number_between(1, MOST_SECONDS, interval)? as i64;
    let first = number_between(0, MOST_SECONDS, first)? as i64;
    Some(Alarm::Every { first, interval })
}

/// Whether a word is this one.
fn is_word(word: &Text, bytes: &[u8]) -> bool
    ensures { result ≡ bytes_eq word.now bytes.now }
{
    word.bytes() == bytes
}
