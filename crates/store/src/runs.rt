// Runs of a lent byte list: copied out, replaced, cleared.
ghost use Rattle.std.specs.Prelude.{◌≡◌, ◌+◌, ◌≤◌, length};
ghost use Rattle.byte_lists.specs.Runs.{run, put, zeros};
ghost use Rattle.fault.specs.Outcomes.{Gives};
ghost use Rattle.store.specs.Stores.{load, stored, run_judged};

use byte_lists::within;
use fault::{Fault, Layer, Reason};

pub(crate) fn judge_run(first: u64, n: usize, length: usize) -> Result<(), Fault>
    ensures value { result ≡ run_judged first n length }
{
    let passed = within(first, n as u64, length as u64);
    Layer::Store.demand(passed, Reason::PastStore, first)
}

// Reads a run of a list that is in use as a whole.
pub fn read_from(list: &[u8], first: u64, out: &mut [u8]) -> Result<(), Fault>
    ensures outcome { Gives result (load list.now first (length out.old)) out.old out.new }
{
    judge_run(first, out.len(), list.len())?;
    copy_run(list, first as usize, out);
    Ok(())
}

// Replaces a run of such a list.
pub fn replace_in(list: &mut [u8], first: u64, new: &[u8]) -> Result<(), Fault>
    ensures outcome { Gives result (stored list.old first new.now) list.old list.new }
{
    judge_run(first, new.len(), list.len())?;
    replace_run(list, first as usize, new);
    Ok(())
}

pub(crate) fn copy_run(list: &[u8], at: usize, out: &mut [u8])
    requires { at + length out.old ≤ length list.now }
    ensures after { out.new ≡ run list.now at (length out.old) }
{
    let end = at + out.len();
    out.copy_from_slice(&list[at..end]);
}

pub(crate) fn replace_run(list: &mut [u8], at: usize, new: &[u8])
    requires { at + length new.now ≤ length list.old }
    ensures after { list.new ≡ put list.old at new.now }
{
    let end = at + new.len();
    list[at..end].copy_from_slice(new);
}

pub(crate) fn clear_run(list: &mut [u8], at: usize, n: usize)
    requires { at + n ≤ length list.old }
    ensures after { list.new ≡ put list.old at (zeros n) }
{
    let end = at + n;
    list[at..end].fill(0);
}
