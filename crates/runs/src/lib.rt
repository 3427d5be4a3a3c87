// Runs of a map's words: guest clusters in a row of one kind, data clusters in a row on the host too.
#![tactic(auto)]

ghost use Rattle.std.specs.Prelude.{◌≡◌, ℕ, ◌+◌, ◌-◌, ◌<◌, ◌≤◌, true, false, length, IfSome, MatchOption, slice_index};
ghost use Rattle.runs.specs.Words.{goes_on, kind_of, word_of};

// What a word says of its guest cluster.
#[derive(Clone, Copy, Debug, PartialEq, Eq)]
pub enum Kind {
    Empty,
    Zeros,
    // the host cluster, a run's first one
    Data(u32),
}

const ZEROS: u32 = 1 << 30;

const DATA: u32 = 1 << 31;

#[derive(Clone, Copy, Debug, PartialEq, Eq)]
pub struct Run {
    // the first guest cluster, and how many there are
    pub start: usize,
    pub length: usize,
    pub kind: Kind,
}

// Whether a word goes on the run of the word before it.
fn goes_on(before: u32, word: u32) -> bool
    ensures value { result ≡ goes_on before word }
{
    if before < DATA {
        before == word
    } else {
        before.checked_add(1) == Some(word)
    }
}

impl From<u32> for Kind {
    ghost from_gives = { λ word kind. kind ≡ kind_of word };

    fn from(word: u32) -> Kind {
        match word / ZEROS {
            0 => Kind::Empty,
            1 => Kind::Zeros,
            _ => Kind::Data(word % ZEROS),
        }
    }
}

impl From<Kind> for u32 {
    ghost from_gives = { λ kind word. word ≡ word_of kind };

    fn from(kind: Kind) -> u32 {
        match kind {
            Kind::Empty => 0,
            Kind::Zeros => ZEROS,
            // a good image has fewer than 2^30 clusters
            Kind::Data(host) => DATA + host.min(ZEROS - 1),
        }
    }
}

// The longest run that begins at a guest cluster; none past the last.
pub fn run_at(words: &[u32], start: usize) -> Option<Run>
    ensures start { MatchOption result (length words.now ≤ start) (λ run. (run.start ≡ start) × (run.kind ≡ kind_of (slice_index words.now start))) }
    ensures within { IfSome result (λ run. (1 ≤ run.length) × (start + run.length ≤ length words.now)) }
    ensures alike { IfSome result (λ run. (k : ℕ) → start < k → k < start + run.length → goes_on (slice_index words.now (k - 1)) (slice_index words.now k) ≡ true) }
    ensures most { IfSome result (λ run. start + run.length < length words.now → goes_on (slice_index words.now (start + run.length - 1)) (slice_index words.now (start + run.length)) ≡ false) }
{
    let rest = words.get(start..)?;
    let run = rest
        .chunk_by(|before, word| goes_on(*before, *word))
        .next()?;
    Some(Run {
        start,
        length: run.len(),
        kind: Kind::from(run[0]),
    })
}
