// The words of a line, the commands, and the names of the options.
#![tactic(auto)]

ghost use Rattle.std.specs.Prelude.{◌≡◌, ◌≤◌, length, None};
ghost use Rattle.words.specs.Bounds.{Within};
ghost use Rattle.words.specs.Words.{word_from, if_named, command_of, if_begun, key_of, is_call};

#[derive(Clone, Copy)]
pub enum Command {
    Put,
    Patch,
    Get,
    Wipe,
    Raw,
    Send,
    End,
    Pin,
    Cut,
    Part,
    Sum,
}

// The options of a call: b, script, junk, junklen, log, buffer, reply, first, last, today.
#[derive(Clone, Copy)]
pub enum Key {
    Limit,
    Script,
    Seed,
    Junk,
    Log,
    Buffer,
    Reply,
    First,
    Last,
    Today,
}

// A part of the line.
#[derive(Clone, Copy)]
pub struct Span {
    pub start: usize,
    pub end: usize,
}

// The first word from index `at` on; where there is none, an empty part.
pub fn next_word(line: &[u8], at: usize) -> Span
    ensures { Within (length line.now) result × (at ≤ length line.now → at ≤ result.start) × (result ≡ word_from line.now at) }
{
    let start = text::skip_blanks(line, at);
    let end = text::word_end(line, start);
    Span { start, end }
}

// The command `c` where the word is its name.
fn if_named(word: &[u8], name: &[u8], c: Command) -> Option<Command>
    ensures { result ≡ if_named word.now name.now c None }
{
    text::is_same(word, name).then_some(c)
}

// The command that a word is.
pub fn command_of(word: &[u8]) -> Option<Command>
    ensures { result ≡ command_of word.now }
{
    if_named(word, b"put", Command::Put)
        .or(if_named(word, b"patch", Command::Patch))
        .or(if_named(word, b"get", Command::Get))
        .or(if_named(word, b"wipe", Command::Wipe))
        .or(if_named(word, b"raw", Command::Raw))
        .or(if_named(word, b"send", Command::Send))
        .or(if_named(word, b"end", Command::End))
        .or(if_named(word, b"pin", Command::Pin))
        .or(if_named(word, b"cut", Command::Cut))
        .or(if_named(word, b"part", Command::Part))
        .or(if_named(word, b"sum", Command::Sum))
}

// The option `k` where the word begins with its name, and the index behind that.
fn if_begun(word: &[u8], opening: &[u8], k: Key) -> Option<(Key, usize)>
    ensures { result ≡ if_begun word.now opening.now k None }
{
    word.starts_with(opening).then_some((k, opening.len()))
}

// The option that a word is, and the index in the word at which its value begins.
pub fn key_of(word: &[u8]) -> Option<(Key, usize)>
    ensures { result ≡ key_of word.now }
{
    if_begun(word, b"b=", Key::Limit)
        .or(if_begun(word, b"script=", Key::Script))
        .or(if_begun(word, b"junk=", Key::Seed))
        .or(if_begun(word, b"junklen=", Key::Junk))
        .or(if_begun(word, b"log=", Key::Log))
        .or(if_begun(word, b"buffer=", Key::Buffer))
        .or(if_begun(word, b"reply=", Key::Reply))
        .or(if_begun(word, b"first=", Key::First))
        .or(if_begun(word, b"last=", Key::Last))
        .or(if_begun(word, b"today=", Key::Today))
}

// put, patch, get, wipe, raw: the five calls. They alone take options.
pub fn is_call(c: Command) -> bool
    ensures { result ≡ is_call c }
{
    matches!(
        c,
        Command::Put | Command::Patch | Command::Get | Command::Wipe | Command::Raw
    )
}
