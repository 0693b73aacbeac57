// A page of the choices, which steps over all choices below a pick at once.
ghost use Rattle.std.specs.Prelude.{◌≡◌, ◌+◌, ◌*◌, ◌≤◌, length, take, drop, ◌∷◌};
ghost use Rattle.std.proofs.lemmas.List.Edits.{sets};
ghost use Rattle.lists.specs.Lists.{is_in};
ghost use Rattle.lists.specs.Keys.{times_in};
ghost use Rattle.lists.specs.Choosing.{choices_from};
ghost use Rattle.lists.specs.Pages.{Paged};
ghost use Rattle.lists.specs.Ways.{Used};
ghost use Rattle.choices.specs.Widths.{Widths};
ghost use Rattle.choices.specs.Words.{choice_words};

use crate::find::next_with;

// Whether x is one of the first i picks. Without a loop, since i is small.
pub fn is_picked(picks: [u32; 4], i: usize, x: u32) -> bool
    requires { i ≤ 4 }
    ensures { result ≡ is_in x (take i picks) }
{
    ((0 < i) & (x == picks[0]))
        | (((1 < i) & (x == picks[1]))
            | (((2 < i) & (x == picks[2])) | ((3 < i) & (x == picks[3]))))
}

// A head and its four picks, at a place of the target.
pub fn put(target: &mut [u32], at: usize, head: u32, picks: [u32; 4])
    requires { at + 5 ≤ length target.old }
    ensures { target.new ≡ sets target.old at (head ∷ picks) }
{
    target[at] = head;
    target[at + 1] = picks[0];
    target[at + 2] = picks[1];
    target[at + 3] = picks[2];
    target[at + 4] = picks[3];
}

// The choices for the numbers from the ith of k on, after the picks so far: of those in order the ones from `first` on, at most
// `count`, each written as a head and four picks. How many were written. The numbers still wanted are one fewer at each call.
pub fn fill(
    keys: &[u32; 1024],
    n: usize,
    wanted: [u32; 4],
    widths: [u64; 4],
    k: usize,
    head: u32,
    picks: [u32; 4],
    i: usize,
    first: u64,
    count: usize,
    target: &mut [u32],
    at: usize,
) -> usize
    requires i_le_k { (i ≤ k) × (k ≤ 4) × (n ≤ 1024) × (length keys.now ≡ 1024) }
    requires count_bound { (count ≤ 256) × (at + 5 * count ≤ length target.old) }
    requires widths { Widths (λ t. times_in t (take n keys.now)) (take k wanted) widths }
    requires used { Used (take n keys.now) (take i wanted) (take i picks) }
    ensures { Paged (choice_words head picks i) 5 (choices_from (take n keys.now) (take i picks) (drop i (take k wanted)))
        first count at target.old target.new result }
{
    if i == k {
        if count == 0 {
            return 0;
        }
        if first != 0 {
            return 0;
        }
        put(target, at, head, picks);
        return 1;
    }
    let t = wanted[i];
    let width = widths[i];
    let mut skip = first;
    let mut done = 0;
    let mut p = next_with(keys, n, 0, t);
    while p < n {
        if done == count {
            return done;
        }
        if is_picked(picks, i, p as u32) {
            p = next_with(keys, n, p + 1, t);
        } else if width <= skip {
            skip -= width;
            p = next_with(keys, n, p + 1, t);
        } else if i + 1 == k {
            // The last number: without a call for each choice.
            let mut last = picks;
            last[i] = p as u32;
            put(target, at + 5 * done, head, last);
            done += 1;
            p = next_with(keys, n, p + 1, t);
        } else {
            let mut next = picks;
            next[i] = p as u32;
            done += fill(
                keys,
                n,
                wanted,
                widths,
                k,
                head,
                next,
                i + 1,
                skip,
                count - done,
                target,
                at + 5 * done,
            );
            skip = 0;
            p = next_with(keys, n, p + 1, t);
        }
    }
    done
}
