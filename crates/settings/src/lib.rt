// The options of a call as they are set one by one: numbers, the script, dates.
#![tactic(auto)]

ghost use Rattle.std.specs.Prelude.{◌≡◌};
ghost use Rattle.settings.specs.Settings.{unset_of, is_script, is_day, is_given, room_of, with_number, with_day};

use dates::Date;
use words::{Key, Span};

// first=, last= and today=, where they are given.
#[derive(Clone, Copy)]
pub struct Days {
    pub first: Option<Date>,
    pub last: Option<Date>,
    pub today: Option<Date>,
}

// What the options read so far say.
#[derive(Clone, Copy)]
pub struct Settings {
    pub limit: Option<usize>,
    pub seed: Option<usize>,
    pub junk: Option<usize>,
    pub log: Option<usize>,
    pub buffer: Option<usize>,
    pub reply: Option<usize>,
    pub script: Option<Span>,
    pub days: Days,
}

// No option is given.
pub fn unset() -> Settings
    ensures { result ≡ unset_of }
{
    Settings {
        limit: None,
        seed: None,
        junk: None,
        log: None,
        buffer: None,
        reply: None,
        script: None,
        days: Days {
            first: None,
            last: None,
            today: None,
        },
    }
}

// script= alone has HEX for its value.
pub fn is_script(k: Key) -> bool
    ensures { result ≡ is_script k }
{
    matches!(k, Key::Script)
}

// first=, last= and today= have a date.
pub fn is_day(k: Key) -> bool
    ensures { result ≡ is_day k }
{
    matches!(k, Key::First | Key::Last | Key::Today)
}

// The option was given before.
pub fn is_given(s: Settings, k: Key) -> bool
    ensures { result ≡ is_given s k }
{
    match k {
        Key::Limit => s.limit.is_some(),
        Key::Script => s.script.is_some(),
        Key::Seed => s.seed.is_some(),
        Key::Junk => s.junk.is_some(),
        Key::Log => s.log.is_some(),
        Key::Buffer => s.buffer.is_some(),
        Key::Reply => s.reply.is_some(),
        Key::First => s.days.first.is_some(),
        Key::Last => s.days.last.is_some(),
        Key::Today => s.days.today.is_some(),
    }
}

// The most that an option's number may be: the room of a length; of the others, any number that is read.
pub fn room_of(k: Key) -> usize
    ensures { result ≡ room_of k }
{
    match k {
        Key::Junk => 1_114_112,
        Key::Log => 102_204,
        Key::Buffer | Key::Reply => 65_536,
        _ => usize::MAX,
    }
}

// The option set to the number; one that takes none is as it was.
pub fn with_number(s: Settings, k: Key, n: usize) -> Settings
    ensures { result ≡ with_number s k n }
{
    let given = Some(n);
    match k {
        Key::Limit => Settings { limit: given, ..s },
        Key::Seed => Settings { seed: given, ..s },
        Key::Junk => Settings { junk: given, ..s },
        Key::Log => Settings { log: given, ..s },
        Key::Buffer => Settings { buffer: given, ..s },
        Key::Reply => Settings { reply: given, ..s },
        _ => s,
    }
}

// The date set; an option that takes none is as it was.
pub fn with_day(days: Days, k: Key, date: Date) -> Days
    ensures { result ≡ with_day days k date }
{
    let given = Some(date);
    match k {
        Key::First => Days {
            first: given,
            ..days
        },
        Key::Last => Days {
            last: given,
            ..days
        },
        Key::Today => Days {
            today: given,
            ..days
        },
        _ => days,
    }
}
