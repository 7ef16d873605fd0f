//! The words that the program is called with: a job, options and files.
ghost use Rattle.std.specs.Prelude.{◌≡◌, ◌≤◌, Ok, Err, IfOk, MatchResult, find, length, option_and_then};
ghost use Rattle.std.specs.List.{list_any};
ghost use Rattle.std.specs.Option.{option_copied};
ghost use Rattle.ygm_run.specs.Notes.{note_line};
ghost use Rattle.ygm_run.specs.CommandLine.{command_in, fewer_later, options_of, parts_by, passes};
ghost use Rattle.ygm_run.specs.Words.{CanRun, asked_by, asked_in, buffer_of, command_of, cores_of, form_of, has_twice, holds, if_within, is_of_form, kind_text, number_after, number_given, number_within, order_of, parts_of, ranks_of, refusals, scheme_in, scheme_of, texts_of, value_of};

use crate::run_job::{JobKind, Settings};
use send_buffers::{MAX_BUFFER, MIN_BUFFER};
use ygm_route::{Layout, Scheme};

/// The greatest number of ranks.
pub const MAX_RANKS: usize = ygm_route::MAX_RANKS as usize;

/// The name of the job that counts lines.
const TALLY: &str = "tally";

/// The word that ends the options. A longer word that begins with it is an option.
const DASHES: &str = "--";

/// The option that says how many ranks there are. Its default is the number of files.
const RANKS: &str = "--ranks";

/// The option that says how many cores a node has.
const CORES: &str = "--cores";

/// How many cores a node has if no option says it.
const DEFAULT_CORES: u32 = 1;

/// The option that says how letters travel between ranks.
const SCHEME: &str = "--scheme";

/// The option that says how many bytes a batch of letters has at most.
const BUFFER: &str = "--buffer";

/// How many bytes a batch has at most if no option says it.
const DEFAULT_BUFFER: u32 = 16_384;

/// Why words are refused.
#[derive(Clone, Copy, Debug, PartialEq, Eq)]
pub enum UsageKind {
    /// There is no word.
    NoJob,
    /// The first word is no job.
    UnknownJob,
    /// The name of an option isn't in the table of options.
    UnknownOption,
    /// Two options have one name.
    OptionTwice,
    /// The last word is an option, and no value follows.
    MissingValue,
    /// The value of an option isn't of its form.
    BadValue,
    /// No word names a file.
    NoFile,
    /// There are more files than ranks.
    TooManyFiles,
    /// The number of ranks or of cores is 0, or the ranks don't fill their nodes.
    Layout,
    /// There are more than `MAX_RANKS` ranks.
    TooManyRanks,
}

/// The refusals, in the order in which they are tried.
const REFUSALS: [UsageKind; 10] = [
    UsageKind::NoJob,
    UsageKind::UnknownJob,
    UsageKind::UnknownOption,
    UsageKind::OptionTwice,
    UsageKind::MissingValue,
    UsageKind::BadValue,
    UsageKind::NoFile,
    UsageKind::TooManyFiles,
    UsageKind::Layout,
    UsageKind::TooManyRanks,
];

impl UsageKind {
    /// The line that the program writes about the refusal. Takes no memory.
    pub fn note(&self) -> &'static str
        ensures { result.now ≡ note_line (kind_text self.now) }
    {
        match self {
            UsageKind::NoJob => "ygm_run: no job\n",
            UsageKind::UnknownJob => "ygm_run: unknown job\n",
            UsageKind::UnknownOption => "ygm_run: unknown option\n",
            UsageKind::OptionTwice => "ygm_run: option given twice\n",
            UsageKind::MissingValue => "ygm_run: option without a value\n",
            UsageKind::BadValue => "ygm_run: bad value\n",
            UsageKind::NoFile => "ygm_run: no file\n",
            UsageKind::TooManyFiles => "ygm_run: too many files\n",
            UsageKind::Layout => "ygm_run: layout\n",
            UsageKind::TooManyRanks => "ygm_run: too many ranks\n",
        }
    }
}

/// The form of an option's value.
#[derive(Clone, Copy)]
pub enum Form {
    /// A number within these bounds.
    Number { least: u32, most: u32 },
    /// The name of a scheme.
    SchemeName,
}

/// A number of ranks or of cores.
const COUNT: Form = Form::Number {
    least: 0,
    most: 999_999,
};

/// The most bytes of a batch.
const BATCH: Form = Form::Number {
    least: MIN_BUFFER,
    most: MAX_BUFFER,
};

impl Form {
    /// Whether the text is of this form.
    fn fits(self, text: &str) -> bool
        ensures { result ≡ is_of_form self text.now }
    {
        match self {
            Form::Number { least, most } => number_within(text, least, most).is_some(),
            Form::SchemeName => scheme_of(text).is_some(),
        }
    }
}

// The table of the options: the form of the value of the option of this name.
fn form_of(name: &str) -> Option<Form>
    ensures { result ≡ form_of name.now }
{
    match name {
        RANKS => Some(COUNT),
        CORES => Some(COUNT),
        SCHEME => Some(Form::SchemeName),
        BUFFER => Some(BATCH),
        _ => None,
    }
}

// The scheme of this name.
fn scheme_of(text: &str) -> Option<Scheme>
    ensures { result ≡ scheme_of text.now }
{
    match text {
        "none" => Some(Scheme::Direct),
        "nr" => Some(Scheme::Nr),
        "nlnr" => Some(Scheme::Nlnr),
        _ => None,
    }
}

// The number that the text is, if it is within the bounds: `0`, or digits that don't begin with `0`.
fn number_within(text: &str, least: u32, most: u32) -> Option<u32>
    ensures { result ≡ number_within least most text.now }
{
    let digits = text.as_bytes();
    match digits {
        [] | [b'0', _, ..] => None,
        _ => digits_within(digits, least, most),
    }
}

// The number that the digits make, if it is within the bounds.
fn digits_within(digits: &[u8], least: u32, most: u32) -> Option<u32>
    ensures { result ≡ option_and_then (if_within least most) (number_after 0 digits.now) }
{
    let mut number: u64 = 0;
    for digit in digits {
        if !digit.is_ascii_digit() {
            return None;
        }
        number = number * 10 + u64::from(*digit - b'0');
        if number > u64::from(most) {
            return None;
        }
    }
    if number < u64::from(least) {
        None
    } else {
        Some(number as u32)
    }
}

/// What words begin with, where options may stand.
#[derive(Clone, Copy)]
enum Next<'a> {
    /// An option, with its value if a word follows it, and the words after them.
    Option {
        name: &'a str,
        value: Option<&'a str>,
        later: &'a [String],
    },
    /// Files, up to the last word.
    Files(&'a [String]),
}

impl<'a> Next<'a> {
    fn of(words: &'a [String]) -> Next<'a>
        ensures parts { parts_of (texts_of words.now) ≡ parts_by result }
        ensures fewer { fewer_later result (length words.now) }
    {
        let [word, later @ ..] = words else {
            return Next::Files(words);
        };
        if word.as_str() == DASHES {
            return Next::Files(later);
        }
        if !word.as_bytes().starts_with(DASHES.as_bytes()) {
            return Next::Files(words);
        }
        let name = word.as_str();
        match later {
            [] => Next::Option {
                name,
                value: None,
                later,
            },
            [value, later @ ..] => Next::Option {
                name,
                value: Some(value.as_str()),
                later,
            },
        }
    }
}

/// A test of an option.
#[derive(Clone, Copy)]
enum Test<'a> {
    /// Its name isn't in the table of options.
    IsUnknown,
    /// This is its name.
    IsNamed(&'a str),
    /// No word follows it.
    LacksValue,
    /// Its value isn't of its form.
    HasBadValue,
}

impl<'a> Test<'a> {
    fn passes(self, name: &str, value: Option<&str>) -> bool
        ensures { result ≡ passes self.entry (record { name = name.now; value = option_copied value.entry }) }
    {
        match self {
            Test::IsUnknown => form_of(name).is_none(),
            Test::IsNamed(other) => name == other,
            Test::LacksValue => value.is_none(),
            Test::HasBadValue => match (form_of(name), value) {
                (Some(form), Some(text)) => !form.fits(text),
                _ => false,
            },
        }
    }
}

// Whether an option among the words after a job passes the test.
fn any_option(words: &[String], test: Test<'_>) -> bool
    ensures { result ≡ list_any (passes test.entry) (options_of (texts_of words.now)) }
{
    let mut rest = words;
    while let Next::Option { name, value, later } = Next::of(rest) {
        if test.passes(name, value) {
            return true;
        }
        rest = later;
    }
    false
}

// Whether two options among the words after a job have one name. Once all names are known, a few options decide it.
fn has_twice(words: &[String]) -> bool
    ensures { result ≡ has_twice (options_of (texts_of words.now)) }
{
    let mut rest = words;
    while let Next::Option { name, later, .. } = Next::of(rest) {
        if any_option(later, Test::IsNamed(name)) {
            return true;
        }
        rest = later;
    }
    false
}

// The files that the words after a job name.
fn files_of(words: &[String]) -> &[String]
    ensures { texts_of result.now ≡ (parts_of (texts_of words.now)).files }
{
    let mut rest = words;
    loop {
        match Next::of(rest) {
            Next::Option { later, .. } => rest = later,
            Next::Files(files) => return files,
        }
    }
}

// The value of the first option of this name among the words after a job.
fn value_of<'a>(name: &str, words: &'a [String]) -> Option<&'a str>
    ensures { option_copied result ≡ value_of name.now (options_of (texts_of words.now)) }
{
    let mut rest = words;
    while let Next::Option {
        name: other,
        value,
        later,
    } = Next::of(rest)
    {
        if other == name {
            return value;
        }
        rest = later;
    }
    None
}

// The number that the option of this name gives, if it is given and is of its form.
fn number_given(name: &str, words: &[String]) -> Option<u32>
    ensures { result ≡ number_given name.now (options_of (texts_of words.now)) }
{
    let value = value_of(name, words)?;
    match form_of(name) {
        Some(Form::Number { least, most }) => number_within(value, least, most),
        Some(Form::SchemeName) | None => None,
    }
}

/// A command line: its first word, if there is one, the words after it, and those of them that are files.
#[derive(Clone, Copy)]
struct Command<'a> {
    job: Option<&'a str>,
    words: &'a [String],
    files: &'a [String],
}

impl<'a> Command<'a> {
    fn of(words: &'a [String]) -> Command<'a>
        ensures { command_in result ≡ command_of (texts_of words.now) }
    {
        match words {
            [] => Command {
                job: None,
                words,
                files: words,
            },
            [job, later @ ..] => Command {
                job: Some(job.as_str()),
                words: later,
                files: files_of(later),
            },
        }
    }

    // How many ranks there are to be.
    fn ranks(&self) -> usize
        ensures { result ≡ ranks_of (command_in self.now) }
    {
        match number_given(RANKS, self.words) {
            Some(ranks) => ranks as usize,
            None => self.files.len(),
        }
    }

    // How many cores a node is to have.
    fn cores(&self) -> u32
        ensures { result ≡ cores_of (command_in self.now) }
    {
        number_given(CORES, self.words).unwrap_or(DEFAULT_CORES)
    }

    // How letters are to travel.
    fn scheme(&self) -> Scheme
        ensures { result ≡ scheme_in (command_in self.now) }
    {
        value_of(SCHEME, self.words)
            .and_then(|text| scheme_of(text))
            .unwrap_or(Scheme::Direct)
    }

    // How many bytes a batch is to have at most.
    fn buffer(&self) -> u32
        ensures { result ≡ buffer_of (command_in self.now) }
    {
        number_given(BUFFER, self.words).unwrap_or(DEFAULT_BUFFER)
    }

    // The table of the refusals: whether this one holds.
    fn holds(&self, kind: UsageKind) -> bool
        ensures { result ≡ holds (command_in self.now) kind }
    {
        match kind {
            UsageKind::NoJob => self.job.is_none(),
            UsageKind::UnknownJob => match self.job {
                Some(job) => job != TALLY,
                None => true,
            },
            UsageKind::UnknownOption => any_option(self.words, Test::IsUnknown),
            UsageKind::OptionTwice => has_twice(self.words),
            UsageKind::MissingValue => any_option(self.words, Test::LacksValue),
            UsageKind::BadValue => any_option(self.words, Test::HasBadValue),
            UsageKind::NoFile => self.files.is_empty(),
            UsageKind::TooManyFiles => self.ranks() < self.files.len(),
            UsageKind::Layout => {
                let ranks = self.ranks();
                let cores = self.cores() as usize;
                ranks == 0 || cores == 0 || ranks % cores != 0
            }
            UsageKind::TooManyRanks => MAX_RANKS < self.ranks(),
        }
    }

    // The first refusal that holds, if one does.
    fn refusal(&self) -> Option<UsageKind>
        ensures { result ≡ find (holds (command_in self.now)) refusals }
    {
        for kind in REFUSALS {
            if self.holds(kind) {
                return Some(kind);
            }
        }
        None
    }

    // What the command line asks for.
    fn order(self) -> Order<'a>
        requires accepted { find (holds (command_in self)) refusals ≡ None }
        ensures exact { asked_in result ≡ asked_by (command_in self.entry) }
    {
        let Ok(layout) = Layout::new(self.ranks() as u32, self.cores()) else {
            unreachable!();
        };
        Order {
            settings: Settings {
                kind: JobKind::Tally,
                layout,
                scheme: self.scheme(),
                buffer: self.buffer(),
            },
            names: self.files,
        }
    }
}

/// What words ask for: a job with its settings, over the files of these names. Rank i reads file i.
#[derive(Clone, Copy, Debug)]
pub struct Order<'a> {
    pub settings: Settings,
    pub names: &'a [String],
}

/// Reads words. The names are borrowed from the words, so this takes no memory.
///
/// After the job, a word that begins with `--` is an option, and takes the next word as its value, up to the word `--`,
/// which is dropped, or to another word. The words from there on are files. The first refusal that holds is returned.
pub fn read_words(words: &[String]) -> Result<Order<'_>, UsageKind>
    ensures exact { MatchResult result
        (λ order. order_of (texts_of words.now) ≡ Ok (asked_in order))
        (λ kind. order_of (texts_of words.now) ≡ Err kind) }
    ensures some { IfOk result (λ order. 1 ≤ length order.names.now) }
    ensures settings { IfOk result (λ order. CanRun order.settings (length order.names.now)) }
{
    let command = Command::of(words);
    match command.refusal() {
        Some(kind) => Err(kind),
        None => Ok(command.order()),
    }
}

#[cfg(test)]
mod tests {
    use super::*;
    use std::alloc::{AllocError, Global};
    use std::process::Abort;
    use std::test::Fail;

    fn words_of(alloc: Global, texts: &[&str]) -> Result<Vec<String>, AllocError> {
        let mut words = Vec::new(alloc);
        for text in texts {
            words.push(String::from_str(alloc, text)?)?;
        }
        Ok(words)
    }

    // How many ranks and cores the words ask for, and the files, each before a comma; or the refusal's note.
    fn reading_of(alloc: Global, texts: &[&str]) -> Result<String, AllocError> {
        let words = words_of(alloc, texts)?;
        match read_words(&words) {
            Ok(order) => {
                let layout = order.settings.layout;
                let mut reading = format!(in alloc; "{} on {}: ", layout.ranks(), layout.cores())?;
                for name in order.names {
                    reading.push_str(name.as_str())?;
                    reading.push_str(",")?;
                }
                Ok(reading)
            }
            Err(kind) => String::from_str(alloc, kind.note()),
        }
    }

    // The words are read so.
    fn reads(rt: &(impl Abort + AllocGlobal), texts: &[&str], reading: &str) -> Result<(), Fail> {
        assert_eq!(rt; reading_of(rt.alloc(), texts)?.as_str(), reading);
        Ok(())
    }

    #[test]
    fn words_after_the_options_are_files(rt: HostRuntime) -> Result<(), Fail> {
        reads(&rt, &["tally", "a"], "1 on 1: a,")?;
        reads(&rt, &["tally", "--", "--x"], "1 on 1: --x,")?;
        reads(&rt, &["tally", "--", "--"], "1 on 1: --,")?;
        reads(&rt, &["tally", "-x", "-", "a"], "3 on 1: -x,-,a,")?;
        reads(&rt, &["tally", "a", "--x", "--"], "3 on 1: a,--x,--,")
    }

    #[test]
    fn an_option_takes_the_next_word(rt: HostRuntime) -> Result<(), Fail> {
        let ranks = ["tally", "--ranks", "8", "--cores", "4", "a", "--ranks"];
        reads(&rt, &ranks, "8 on 4: a,--ranks,")?;
        let scheme = ["tally", "--scheme", "none", "--", "a", "b"];
        reads(&rt, &scheme, "2 on 1: a,b,")?;
        reads(
            &rt,
            &["tally", "--ranks", "--", "a"],
            "ygm_run: bad value\n",
        )
    }

    #[test]
    fn each_refusal_has_its_note(rt: HostRuntime) -> Result<(), Fail> {
        reads(&rt, &[], "ygm_run: no job\n")?;
        reads(&rt, &["frob", "a"], "ygm_run: unknown job\n")?;
        reads(
            &rt,
            &["tally", "--ranks=2", "a"],
            "ygm_run: unknown option\n",
        )?;
        let twice = ["tally", "--ranks", "1", "--ranks", "1", "a"];
        reads(&rt, &twice, "ygm_run: option given twice\n")?;
        reads(
            &rt,
            &["tally", "--ranks"],
            "ygm_run: option without a value\n",
        )?;
        for (name, value) in [
            ("--ranks", "01"),
            ("--scheme", "star"),
            ("--buffer", "63"),
            ("--buffer", "65537"),
        ] {
            reads(&rt, &["tally", name, value, "a"], "ygm_run: bad value\n")?;
        }
        reads(&rt, &["tally", "--"], "ygm_run: no file\n")?;
        let few = ["tally", "--ranks", "2", "a", "b", "c"];
        reads(&rt, &few, "ygm_run: too many files\n")?;
        let uneven = ["tally", "--ranks", "6", "--cores", "4", "f0"];
        reads(&rt, &uneven, "ygm_run: layout\n")?;
        reads(
            &rt,
            &["tally", "--ranks", "33", "a"],
            "ygm_run: too many ranks\n",
        )
    }

    #[test]
    fn the_first_refusal_is_reported(rt: HostRuntime) -> Result<(), Fail> {
        reads(&rt, &["frob", "--x"], "ygm_run: unknown job\n")?;
        let later = ["tally", "--ranks", "1", "--ranks", "1", "--x"];
        reads(&rt, &later, "ygm_run: unknown option\n")?;
        let twice = ["tally", "--ranks", "1", "--ranks"];
        reads(&rt, &twice, "ygm_run: option given twice\n")?;
        let none = ["tally", "--ranks", "0", "f0"];
        reads(&rt, &none, "ygm_run: too many files\n")?;
        let many = ["tally", "--ranks", "99", "--cores", "2", "f0"];
        reads(&rt, &many, "ygm_run: layout\n")
    }

    // How many files the words name.
    fn file_count(words: &[String]) -> Result<usize, UsageKind> {
        match read_words(words) {
            Ok(order) => Ok(order.names.len()),
            Err(kind) => Err(kind),
        }
    }

    #[test]
    fn there_are_at_most_32_ranks(rt: HostRuntime) -> Result<(), Fail> {
        let alloc = rt.alloc();
        let mut words = words_of(alloc, &["tally"])?;
        for _ in 0..32 {
            words.push(String::from_str(alloc, "a")?)?;
        }
        assert_eq!(rt; file_count(&words), Ok(32));
        words.push(String::from_str(alloc, "a")?)?;
        assert_eq!(rt; file_count(&words), Err(UsageKind::TooManyRanks));
        Ok(())
    }
}
