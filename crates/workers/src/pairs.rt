// Calls on pairs of values in threads. They are generic over plain parameters, so that what a closure wrote through a
// part of a slice is known at any type.
ghost use Rattle.std.specs.Prelude.{◌≡◌, ◌<◌, ◌≤◌, length};
ghost use Rattle.std.specs.Thread.{IsSync};
ghost use Rattle.workers.specs.Pairs.{AllCan, AllGive};
ghost use Rattle.workers.specs.Calls.{TakesPair, LeavesPair};

use std::thread::{Threads, join_mut};

// One pair.
fn run_one<T, U, F: Fn(&mut T, &mut U)>(f: &F, x: &mut T, y: &mut U)
    requires can { TakesPair F.Fn f.now x.old y.old }
    ensures gives { LeavesPair F.Fn f.now x.old y.old x.new y.new }
{
    f(x, y);
}

/// Calls `f` on each pair of values at the same place of two slices, which are of one length. Each pair has a thread of
/// its own; where none can be made, pairs are done one after another.
pub fn run_all<R: Threads + Sync, T: Send, U: Send, F: Fn(&mut T, &mut U) + Sync>(
    rt: &R,
    f: &F,
    xs: &mut [T],
    ys: &mut [U],
)
    requires can { AllCan (TakesPair F.Fn f.now) xs.old ys.old }
    requires as_many { length xs.old ≡ length ys.old }
    ensures gives { AllGive (LeavesPair F.Fn f.now) xs.old ys.old xs.new ys.new }
{
    if xs.len() == 0 {
        return;
    }
    if xs.len() == 1 {
        run_one(f, &mut xs[0], &mut ys[0]);
        return;
    }
    let half = xs.len() / 2;
    let (xs_front, xs_back) = xs.split_at_mut(half);
    let (ys_front, ys_back) = ys.split_at_mut(half);
    join_mut(
        rt,
        &mut ||
            requires { IsSync R.row × IsSync F.row × AllCan (TakesPair F.Fn f.now) xs_front.now ys_front.now
                × (length xs_front.now ≡ length ys_front.now) }
            ensures { AllGive (LeavesPair F.Fn f.entry.now)
                xs_front.entry.now ys_front.entry.now xs_front.exit.now ys_front.exit.now }
        { run_all(rt, f, xs_front, ys_front) },
        &mut ||
            requires { IsSync R.row × IsSync F.row × AllCan (TakesPair F.Fn f.now) xs_back.now ys_back.now
                × (length xs_back.now ≡ length ys_back.now) }
            ensures { AllGive (LeavesPair F.Fn f.entry.now)
                xs_back.entry.now ys_back.entry.now xs_back.exit.now ys_back.exit.now }
        { run_all(rt, f, xs_back, ys_back) },
    );
}

/// Calls `f` on each pair of two slices beside `g` on each pair of two others. Where no thread can be made, `g`'s pairs
/// come first: what waits for the others belongs in `f`.
pub fn run_with<
    R: Threads + Sync,
    S: Send,
    T: Send,
    U: Send,
    V: Send,
    F: Fn(&mut S, &mut T) + Sync,
    G: Fn(&mut U, &mut V) + Sync,
>(rt: &R, f: &F, ss: &mut [S], ts: &mut [T], g: &G, us: &mut [U], vs: &mut [V])
    requires first { AllCan (TakesPair F.Fn f.now) ss.old ts.old }
    requires second { AllCan (TakesPair G.Fn g.now) us.old vs.old }
    requires as_many { (length ss.old ≡ length ts.old) × (length us.old ≡ length vs.old) }
    ensures first { AllGive (LeavesPair F.Fn f.now) ss.old ts.old ss.new ts.new }
    ensures second { AllGive (LeavesPair G.Fn g.now) us.old vs.old us.new vs.new }
{
    join_mut(
        rt,
        &mut ||
            requires { IsSync R.row × IsSync F.row × AllCan (TakesPair F.Fn f.now) ss.now ts.now
                × (length ss.now ≡ length ts.now) }
            ensures { AllGive (LeavesPair F.Fn f.entry.now) ss.entry.now ts.entry.now ss.exit.now ts.exit.now }
        { run_all(rt, f, ss, ts) },
        &mut ||
            requires { IsSync R.row × IsSync G.row × AllCan (TakesPair G.Fn g.now) us.now vs.now
                × (length us.now ≡ length vs.now) }
            ensures { AllGive (LeavesPair G.Fn g.entry.now) us.entry.now vs.entry.now us.exit.now vs.exit.now }
        { run_all(rt, g, us, vs) },
    );
}
