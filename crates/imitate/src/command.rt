ghost use Rattle.std.specs.Prelude.{◌≡◌, ◌≤◌, map, None, Some, IfSome, IsNone};
ghost use Rattle.std.specs.Option.{option_zip};
ghost use Rattle.imitate.specs.Words.{plain_of, run_of, load_of, number_in, max_size, asked_of, names_in, nobody};
ghost use Rattle.imitate.specs.Commands.{asked_by, named, IsInRange};

use gr_base::{Numeral, number};

/// The names of the files of a command. `plain` names no schedule and no trace.
#[derive(Clone, Copy)]
pub struct Names<'a> {
    pub graph: &'a str,
    pub job: &'a str,
    pub schedule: &'a str,
    pub trace: &'a str,
}

impl<'a> Names<'a> {
    /// No names.
    pub fn none() -> Names<'a>
        ensures { named result ≡ nobody }
    {
        Names {
            graph: "",
            job: "",
            schedule: "",
            trace: "",
        }
    }
}

/// What the words ask for. `load` has a seed and a size.
#[derive(Clone, Copy)]
pub enum Command<'a> {
    Plain(Names<'a>),
    Run(Names<'a>),
    Load(u32, u32),
}

impl<'a> Command<'a> {
    /// The names of its files.
    pub fn names(self) -> Names<'a>
        ensures { named result ≡ names_in (asked_by self.entry) }
    {
        match self {
            Command::Plain(names) => names,
            Command::Run(names) => names,
            Command::Load(_, _) => Names::none(),
        }
    }
}

/// The command that the words give.
pub fn read_command<'a>(words: &[&'a str]) -> Option<Command<'a>>
    ensures some { IfSome result (λ c. asked_of (map (λ w. w.now) words.now) ≡ Some (asked_by c)) }
    ensures none { IsNone result → asked_of (map (λ w. w.now) words.now) ≡ None }
    ensures range { IfSome result IsInRange }
{
    if let Some(names) = plain_names(words) {
        return Some(Command::Plain(names));
    }
    if let Some(names) = run_names(words) {
        return Some(Command::Run(names));
    }
    match load_numbers(words) {
        Some((seed, size)) => Some(Command::Load(seed, size)),
        None => None,
    }
}

// The names of `plain GRAPH JOB`.
fn plain_names<'a>(words: &[&'a str]) -> Option<Names<'a>>
    ensures some { IfSome result (λ names. plain_of (map (λ w. w.now) words.now) ≡ Some (named names)) }
    ensures none { IsNone result → plain_of (map (λ w. w.now) words.now) ≡ None }
{
    match words {
        [word, graph, job] if *word == "plain" => Some(Names {
            graph,
            job,
            schedule: "",
            trace: "",
        }),
        _ => None,
    }
}

// The names of `run GRAPH JOB SCHEDULE TRACE`.
fn run_names<'a>(words: &[&'a str]) -> Option<Names<'a>>
    ensures some { IfSome result (λ names. run_of (map (λ w. w.now) words.now) ≡ Some (named names)) }
    ensures none { IsNone result → run_of (map (λ w. w.now) words.now) ≡ None }
{
    match words {
        [word, graph, job, schedule, trace] if *word == "run" => Some(Names {
            graph,
            job,
            schedule,
            trace,
        }),
        _ => None,
    }
}

// The numbers of `load SEED SIZE`.
fn load_numbers(words: &[&str]) -> Option<(u32, u32)>
    ensures some { IfSome result (λ n. load_of (map (λ w. w.now) words.now) ≡ Some n) }
    ensures none { IsNone result → load_of (map (λ w. w.now) words.now) ≡ None }
    ensures range { IfSome result (λ n. n.1 ≤ max_size) }
{
    match words {
        [word, seed, size] if *word == "load" => both(seed, size),
        _ => None,
    }
}

// A seed and a size.
fn both(seed: &str, size: &str) -> Option<(u32, u32)>
    ensures is { result ≡ option_zip (number_in 0 4294967295 seed.now) (number_in 1 max_size size.now) }
    ensures range { IfSome result (λ n. n.1 ≤ max_size) }
{
    let seed = number_of(seed, 0, u32::MAX)?;
    let size = number_of(size, 1, 100000)?;
    Some((seed, size))
}

// The number of a word of digits, from `least` to `most`.
fn number_of(word: &str, least: u32, most: u32) -> Option<u32>
    ensures is { result ≡ number_in least most word.now }
    ensures range { IfSome result (λ n. n ≤ most) }
{
    let bytes = word.as_bytes();
    match number(bytes, 0) {
        Numeral::Is(value, end) => {
            if (end == bytes.len()) & (least <= value) & (value <= most) {
                Some(value)
            } else {
                None
            }
        }
        Numeral::TooLarge(_) => None,
        Numeral::NoDigits => None,
    }
}
