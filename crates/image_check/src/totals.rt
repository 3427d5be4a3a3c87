// The totals: each cluster's word held against its stored count.
ghost use Rattle.std.specs.Prelude.{◌≡◌, ◌/◌, ◌%◌, ◌^◌, ◌≤◌, length, ◌==◌, nat_eq};
ghost use Rattle.tables.specs.Refcounts.{count as count_of};
ghost use Rattle.tally.specs.Words.{kind_in, mark_in};
ghost use Rattle.image_check.specs.Totals.{sum_by, leaks, lacks, repeats};

use format::Numbers;
use store::Store;
use tables::count;
use tally::{Used, kind_of, references_of, repeated};

// What the words of the store's clusters add up to.
#[derive(Clone, Copy, Default)]
pub(crate) struct Found {
    pub(crate) leaked: u64,
    pub(crate) short: u64,
    pub(crate) mixed: u64,
    pub(crate) repeated: u64,
}

fn repeats_by(w: u32) -> bool
    ensures value { result ≡ repeats (kind_in (w / 2 ^ 28)) (w % 2 ^ 28) (mark_in (w / 2 ^ 28) == 2) }
{
    let table = matches!(kind_of(w), Used::As(kind) if !kind.in_tree());
    repeated(w) || (table && 2 <= references_of(w))
}

fn mixed_by(w: u32) -> bool
    ensures value { result ≡ nat_eq (kind_in (w / 2 ^ 28)) 15 }
{
    kind_of(w) == Used::Several
}

pub(crate) fn totals<S: Store>(s: &S, n: Numbers, words: &[u32]) -> Found
    requires { length words.now ≤ 2 ^ 56 }
    ensures leaked { result.leaked ≡ sum_by (λ h w. leaks (w % 2 ^ 28) (count_of n (S.Store.bytes s.now) h)) words.now (length words.now) }
    ensures short { result.short ≡ sum_by (λ h w. lacks (w % 2 ^ 28) (count_of n (S.Store.bytes s.now) h)) words.now (length words.now) }
    ensures mixed { result.mixed ≡ sum_by (λ h w. nat_eq (kind_in (w / 2 ^ 28)) 15) words.now (length words.now) }
    ensures repeated { result.repeated ≡ sum_by (λ h w. repeats (kind_in (w / 2 ^ 28)) (w % 2 ^ 28) (mark_in (w / 2 ^ 28) == 2)) words.now (length words.now) }
    ensures most { result.leaked ≤ 2 ^ 56 }
{
    let mut found = Found::default();
    for (h, w) in words.iter().enumerate() {
        let counted = count(s, n, h as u64) as u32;
        let references = references_of(*w);
        found.leaked += u64::from(references < counted);
        found.short += u64::from(counted < references);
        found.mixed += u64::from(mixed_by(*w));
        found.repeated += u64::from(repeats_by(*w));
    }
    found
}
