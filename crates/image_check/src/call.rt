// The call: judge all, count all, compare, and mark the mount.
ghost use Rattle.std.specs.Prelude.{◌≡◌, ◌^◌, ◌≤◌, true, List, map, length, IfOk, Ok, Err, MatchResult};
ghost use Rattle.format.specs.declared.numbers.Numbers.{Numbers};
ghost use Rattle.snapshot.specs.declared.records.Snapshot.{Snapshot};
ghost use Rattle.walk.specs.References.{references};
ghost use Rattle.walk.specs.Walk.{walk as walk_of};
ghost use Rattle.tally.specs.Tally.{tally};
ghost use Rattle.tally.specs.Words.{unmarked};
ghost use Rattle.image_check.specs.Totals.{clusters_of};
ghost use Rattle.image_check.specs.Lawful.{Lawful};
ghost use Rattle.image_check.specs.Outcome.{totals_of, check_outcome, found_clean};

use crate::flags::flags;
use crate::past::{clusters, past_end};
use crate::totals::totals;
use disk::Disk;
use fault::Fault;
use format::Numbers;
use image::{Mount, judge_room};
use snapshot::Snapshot;
use store::Store;
use tally::{fill, unmark};
use walk::walk;

fn unmark_all(words: &mut [u32])
    ensures after { words.new ≡ map unmarked words.old }
{
    for w in words.iter_mut() {
        *w = unmark(*w);
    }
}

// The tally and the five totals of an image whose walk is good.
fn count_up<S: Store>(
    s: &S,
    n: Numbers,
    list: &[Snapshot],
    words: &mut [u32],
) -> (u64, u64, u64, u64, u64)
    requires words_len { length words.old ≡ clusters_of n (S.Store.bytes s.now) }
    requires words_len_bound { length words.old ≤ 2 ^ 56 }
    ensures answer { result ≡ totals_of n (S.Store.bytes s.now) list.now }
    ensures words { words.new ≡ tally (references n (S.Store.bytes s.now) list.now) (length words.old) }
{
    words.fill(0);
    fill(s, n, list, words);
    let found = totals(s, n, words);
    unmark_all(words);
    let leaked = found.leaked + past_end(s, n);
    (
        leaked,
        found.short,
        found.mixed,
        found.repeated,
        flags(s, n),
    )
}

// Whether all five totals are zero.
fn all_zero(t: (u64, u64, u64, u64, u64)) -> bool
    ensures value { result ≡ found_clean t }
{
    t == (0, 0, 0, 0, 0)
}

// Fills the list with the tally and gives leaked, short, mixed, repeated and flags together. The mount is then clean
// exactly if all five are zero, and they are exactly if the image is lawful; a refusal leaves list and mount as they were.
pub fn check<S: Store, B: Disk>(
    m: &mut Mount<S, B>,
    words: &mut [u32],
) -> Result<(u64, u64, u64, u64, u64), Fault>
    ensures answer { MatchResult result (λ t. check_outcome m.old.header (S.Store.bytes m.old.store) words.old ≡ Ok (record { totals = t; words = words.new })) (λ e. (check_outcome m.old.header (S.Store.bytes m.old.store) words.old ≡ Err e) × (words.new ≡ words.old)) }
    ensures clean { MatchResult result (λ t. m.new.clean ≡ found_clean t) (λ _. m.new.clean ≡ m.old.clean) }
    ensures store { m.new.store ≡ m.old.store }
    ensures backing { m.new.backing ≡ m.old.backing }
    ensures numbers { m.new.header ≡ m.old.header }
    ensures lawful { IfOk result (λ t. (n : Numbers) (rs : List Snapshot) → m.old.header ≡ Ok n → walk_of n (S.Store.bytes m.old.store) ≡ Ok rs → (found_clean t ≡ true → Lawful n (S.Store.bytes m.old.store) rs) × (Lawful n (S.Store.bytes m.old.store) rs → found_clean t ≡ true)) }
{
    let n = m.header?;
    let k = clusters(&m.store, n);
    judge_room(words.len(), k)?;
    let all = walk(&m.store, n)?;
    let totals = count_up(&m.store, n, all.kept(), &mut words[0..k as usize]);
    m.clean = all_zero(totals);
    Ok(totals)
}
