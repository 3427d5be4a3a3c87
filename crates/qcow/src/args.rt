// The arguments of a task: options with a value, switches, and words.
use layers::Stop;
use std::alloc::Global;
use std::collections::{BTreeMap, BTreeSet};

#[derive(Drop)]
pub(crate) struct Arguments {
    // the value of each option, the last one given
    options: BTreeMap<String, String>,
    switches: BTreeSet<String>,
    pub(crate) words: Vec<String>,
}

// What a word of the arguments is.
enum Sort {
    // an option whose value is the next word
    Valued,
    Switch,
    Unknown,
    Plain,
}

fn sort_of(word: &str, valued: &[&str], switches: &[&str]) -> Sort {
    if valued.contains(&word) {
        return Sort::Valued;
    }
    if switches.contains(&word) {
        return Sort::Switch;
    }
    if word.starts_with("--") {
        return Sort::Unknown;
    }
    let short = has_short(valued) || has_short(switches);
    if short && word.len() > 1 && word.starts_with('-') {
        return Sort::Unknown;
    }
    Sort::Plain
}

// A task without options of one dash takes a word with one for a file's name.
fn has_short(names: &[&str]) -> bool {
    names.iter().any(|name| !name.starts_with("--"))
}

impl Arguments {
    // The arguments behind the task's name; `valued` are the options that take a value, `plain` those that take none.
    pub(crate) fn new(
        heap: Global,
        given: Vec<String>,
        valued: &[&str],
        plain: &[&str],
    ) -> Result<Arguments, Stop> {
        let mut options = BTreeMap::new(heap);
        let mut switches = BTreeSet::new(heap);
        let mut words = Vec::new(heap);
        let mut given = given.into_iter();
        while let Some(word) = given.next() {
            match sort_of(word.as_str(), valued, plain) {
                Sort::Valued => {
                    let Some(value) = given.next() else {
                        return Err(message(heap, "a value is missing behind", word.as_str()));
                    };
                    options.insert(word, value)?;
                }
                Sort::Switch => {
                    switches.insert(word)?;
                }
                Sort::Plain => words.push(word)?,
                Sort::Unknown => return Err(message(heap, "unknown option", word.as_str())),
            }
        }
        Ok(Arguments {
            options,
            switches,
            words,
        })
    }

    // The words, if there are as many as the task takes.
    pub(crate) fn exactly<const N: usize>(
        &self,
        heap: Global,
        usage: &str,
    ) -> Result<&[String; N], Stop> {
        <&[String; N]>::try_from(self.words.as_slice()).map_err(|_| message(heap, "usage:", usage))
    }

    // The value of an option, the last one given.
    pub(crate) fn option(&self, name: &str) -> Option<&str> {
        self.options.get(name).map(|value| value.as_str())
    }

    // Whether a switch was given.
    pub(crate) fn switch(&self, name: &str) -> bool {
        self.switches.contains(name)
    }
}

// An error that names what it is about.
pub(crate) fn message(heap: Global, what: &str, which: &str) -> Stop {
    Stop::said(format!(in heap; "{what} {which}"))
}
