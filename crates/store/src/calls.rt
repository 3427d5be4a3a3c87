// Lists of calls to a store, and the law that two stores of equal bytes and limit answer them alike.
ghost use Rattle.std.specs.Prelude.{◌≡◌, ◌/◌, true, length, Decides};
ghost use Rattle.store.specs.Stores.{load};
ghost use Rattle.store.specs.Calls.{answer, left as left_by, answers, leaves};

use crate::Store;
use fault::Fault;

#[derive(Clone, Copy)]
pub enum StoreCall<'a> {
    Length,
    Limit,
    Read { first: u64, count: usize },
    Replace { first: u64, new: &'a [u8] },
    Grow { length: u64 },
}

fn same_verdict(x: Result<(), Fault>, y: Result<(), Fault>) -> bool
    ensures value { Decides result (x ≡ y) }
{
    match (x, y) {
        (Ok(()), Ok(())) => true,
        (Err(e), Err(f)) => e.is(f),
        _ => false,
    }
}

fn same_bytes(x: &[u8], y: &[u8]) -> bool
    ensures value { Decides result (x.now ≡ y.now) }
{
    x == y
}

fn same_read<A: Store, B: Store>(
    a: &A,
    b: &B,
    first: u64,
    left: &mut [u8],
    right: &mut [u8],
) -> bool
    requires { length left.old ≡ length right.old }
    ensures value { Decides result (load (A.Store.bytes a.now) first (length left.old) ≡ load (B.Store.bytes b.now) first (length left.old)) }
{
    let x = a.read(first, left);
    let y = b.read(first, right);
    if !same_verdict(x, y) {
        return false;
    }
    x.is_err() || same_bytes(left, right)
}

// One call to each store, and whether both answered alike.
fn same_answer<A: Store, B: Store>(
    a: &mut A,
    b: &mut B,
    call: StoreCall,
    left: &mut [u8],
    right: &mut [u8],
) -> bool
    requires { length left.old ≡ length right.old }
    ensures value { Decides result (answer (length left.old) call.entry (A.Store.bytes a.old) (A.Store.limit a.old) ≡ answer (length left.old) call.entry (B.Store.bytes b.old) (B.Store.limit b.old)) }
    ensures first { A.Store.bytes a.new ≡ left_by call.entry (A.Store.bytes a.old) (A.Store.limit a.old) }
    ensures second { B.Store.bytes b.new ≡ left_by call.entry (B.Store.bytes b.old) (B.Store.limit b.old) }
    ensures limits { (A.Store.limit a.new ≡ A.Store.limit a.old) × (B.Store.limit b.new ≡ B.Store.limit b.old) }
{
    match call {
        StoreCall::Length => a.length() == b.length(),
        StoreCall::Limit => a.limit() == b.limit(),
        StoreCall::Read { first, count } => {
            let n = count.min(left.len());
            same_read(a, b, first, &mut left[0..n], &mut right[0..n])
        }
        StoreCall::Replace { first, new } => same_verdict(
            a.replace(first, new),
            b.replace(first, new),
        ),
        StoreCall::Grow { length } => same_verdict(a.grow(length), b.grow(length)),
    }
}

// Gives each call to both stores, and says whether all answers were equal. A read takes at most half of `scratch`.
// Two stores of equal bytes and limit cannot be told apart.
pub fn agree<A: Store, B: Store>(
    a: &mut A,
    b: &mut B,
    calls: &[StoreCall],
    scratch: &mut [u8],
) -> bool
    ensures value { Decides result (answers (length scratch.old / 2) (A.Store.limit a.old) calls.now (A.Store.bytes a.old) ≡ answers (length scratch.old / 2) (B.Store.limit b.old) calls.now (B.Store.bytes b.old)) }
    ensures first { A.Store.bytes a.new ≡ leaves (A.Store.limit a.old) calls.now (A.Store.bytes a.old) }
    ensures second { B.Store.bytes b.new ≡ leaves (B.Store.limit b.old) calls.now (B.Store.bytes b.old) }
    ensures alike { A.Store.bytes a.old ≡ B.Store.bytes b.old → A.Store.limit a.old ≡ B.Store.limit b.old → (result ≡ true) × (A.Store.bytes a.new ≡ B.Store.bytes b.new) }
{
    let half = scratch.len() / 2;
    let (left, right) = scratch.split_at_mut(half);
    let mut all = true;
    for call in calls {
        all &= same_answer(a, b, *call, left, &mut right[0..half]);
    }
    all
}
