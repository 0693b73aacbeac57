// For each port the first place with a message that fits and is not picked yet. That decides, since how many choices there are
// behind a pick goes by counts alone.
ghost use Rattle.std.specs.Prelude.{◌≡◌, ◌&&◌, not, cond, List, [], ◌∷◌, ℕ, ◌≤◌, ◌<◌, length, take, drop, set};
ghost use Rattle.lists.specs.Lists.{is_in};
ghost use Rattle.lists.specs.Each.{All};
ghost use Rattle.lists.specs.FirstChoice.{choices_after};
ghost use Rattle.lists.specs.Ways.{Used};
ghost use Rattle.state.specs.Lent.{Columns};
ghost use Rattle.seek.specs.Seek.{fits_at, NextFit};
ghost use Rattle.first_choice.specs.Choice.{first_choice, FitKeys};

use crate::Choice;
use choices::is_picked;
use idset::WORDS;
use seek::next_fit;

// The first of n places where a message fits and that is none of the first i picks, n if there is none.
fn first_free<'a>(
    owners: &'a [u16; 1024],
    items: &'a [u32; 1024],
    n: usize,
    stopped: &'a [u64; WORDS],
    low: u16,
    high: u16,
    port: u32,
    picks: [u32; 4],
    i: usize,
) -> usize
    requires { Columns owners.now items.now n × (i ≤ 4) }
    ensures { NextFit (λ p. fits_at owners.now items.now low high stopped.now port p
        && not (is_in p (take i picks))) 0 n result }
{
    let mut from = 0;
    while from < n {
        let p = next_fit(owners, items, n, from, low, high, port, stopped);
        if p == n {
            return n;
        }
        if !is_picked(picks, i, p as u32) {
            return p;
        }
        from = p + 1;
    }
    n
}

fn either(b: bool, x: u32, y: u32) -> u32
    ensures { result ≡ cond b x y }
{
    if b { x } else { y }
}

// The picks with p at place i. No store by an index, so that the four stay in registers.
fn placed(picks: [u32; 4], i: usize, p: u32) -> [u32; 4]
    requires { i < 4 }
    ensures { result ≡ set picks i p }
{
    [
        either(i == 0, p, picks[0]),
        either(i == 1, p, picks[1]),
        either(i == 2, p, picks[2]),
        either(i == 3, p, picks[3]),
    ]
}

// The first choice for the ports from the one at `from` on, 0 or 1: behind `first` where that is 1.
pub fn choose<'a>(
    owners: &'a [u16; 1024],
    items: &'a [u32; 1024],
    n: usize,
    stopped: &'a [u64; WORDS],
    low: u16,
    high: u16,
    ports: &'a [u32; 4],
    k: usize,
    first: u32,
    from: usize,
) -> Choice
    requires { Columns owners.now items.now n × (from ≤ k) × (k ≤ 4) × (length ports.now ≡ 4)
        × All (λ x. x ≡ 0) (drop from (first ∷ 0 ∷ 0 ∷ 0 ∷ [])) }
    ensures { (ks wanted : List ℕ)
        → FitKeys owners.now items.now stopped.now ports.now n k low high ks wanted
        → Used ks (take from wanted) (take from (first ∷ 0 ∷ 0 ∷ 0 ∷ []))
        → result ≡ first_choice (choices_after ks (take from (first ∷ 0 ∷ 0 ∷ 0 ∷ [])) (drop from (take k wanted))) }
{
    let mut picks = [first, 0, 0, 0];
    let mut i = from;
    while i < k {
        let p = first_free(owners, items, n, stopped, low, high, ports[i], picks, i);
        if p == n {
            return Choice {
                found: false,
                picks: [0, 0, 0, 0],
            };
        }
        let more = placed(picks, i, p as u32);
        picks = more;
        i += 1;
    }
    Choice { found: true, picks }
}
