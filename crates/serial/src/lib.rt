// The serial log, in two passes: the log is run and recorded, then its moves are made again in serial
// order, on entries that are found by their origins.
#![tactic(auto)]

ghost use Rattle.std.specs.Prelude.{◌+◌, ◌*◌, ◌≤◌, ◌≡◌, length};
ghost use Rattle.semantics.specs.Log.{move_count};
ghost use Rattle.state.specs.Arrays.{Arrays};
ghost use Rattle.serial.specs.Serialized.{Tested, Roomy, SerializedAs, Sortable, SortedAs, Reorderable, ReorderedAs, WrittenAs};

use move_log::count_of;
use order::keys::keys_of;
use order::sort::order_of;
use recording::record::record;
use replay::replay;
use semantics::{Outcome, Refusal, Verdict};
use state::{State, any_owned, load};
use words::copy::copy_words;

// The places of the log's moves in the serial order.
fn order_log<'a>(
    log: &'a [u32],
    members: &'a [u16; 1024],
    ended: &'a [u16; 1024],
    order: &mut [u16; 1024],
)
    requires { Sortable log.now members.now ended.now × (length order.old ≡ 1024) }
    ensures { SortedAs log.now members.now ended.now order.new }
{
    let k = count_of(log);
    let mut keys = [0u16; 1024];
    keys_of(log, members, ended, k, &mut keys);
    let mut next = [0u16; 1024];
    order_of(&keys, k, &mut next, order);
}

// The log of k moves, or 17: nothing is written before all of them fit.
fn store_serial(fits: bool, k: usize, out: &[u32], target: &mut [u32]) -> Outcome
    requires { (k ≤ 1024) × (1 + 5 * k ≤ length out.now) × (1 + 5 * k ≤ length target.old) }
    ensures { WrittenAs fits k out.now target.old target.new result }
{
    if !fits {
        return Outcome::Refused(Refusal::SerialTooManyEntries);
    }
    let n = 1 + 5 * k;
    copy_words(out, n, target);
    Outcome::Written(n as u32)
}

// The second pass, on the same columns: the log's moves in serial order. They are written into words of their own,
// since 17 may be found midway.
fn reordered<'a>(
    table: &'a [u32],
    starts: &'a [u32; 65],
    state: &'a [u32],
    log: &'a [u32],
    wanted: &'a [u16],
    members: &'a [u16; 1024],
    ended: &'a [u16; 1024],
    owners: &mut [u16; 1024],
    items: &mut [u32; 1024],
    origins: &mut [u16; 1024],
    out: &mut [u32],
    target: &mut [u32],
) -> Outcome
    requires { Reorderable table.now starts.now state.now log.now wanted.now members.now ended.now target.old
        × Arrays owners.old items.old origins.old × (1 + 5 * move_count log.now ≤ length out.old) }
    ensures { ReorderedAs table.now state.now log.now target.old target.new result }
{
    let mut order = [0u16; 1024];
    order_log(log, members, ended, &mut order);
    let at = load(state, owners, items, origins);
    let fits = replay(
        table,
        starts,
        owners,
        items,
        origins,
        at,
        log,
        &order,
        wanted,
        members,
        State::MAX_ENTRIES,
        out,
    );
    store_serial(fits, count_of(log), out, target)
}

// The first pass, and what it may find: 16, then 15 at the end.
fn serialized<'a>(
    table: &'a [u32],
    starts: &'a [u32; 65],
    state: &'a [u32],
    log: &'a [u32],
    wanted: &mut [u16],
    out: &mut [u32],
    target: &mut [u32],
) -> Outcome
    requires { Tested table.now starts.now state.now log.now target.old × Roomy log.now wanted.old out.old }
    ensures { SerializedAs table.now state.now log.now target.old target.new result }
{
    let s = State::empty();
    let mut owners = s.owners;
    let mut items = s.items;
    let mut origins = s.origins;
    let at = load(state, &mut owners, &mut items, &mut origins);
    let mut members = [0u16; 1024];
    let mut ended = [0u16; 1024];
    let mut begun = [0u16; 1024];
    let ran = record(
        table,
        starts,
        &mut owners,
        &mut items,
        &mut origins,
        at,
        log,
        State::MAX_ENTRIES,
        wanted,
        &mut members,
        &mut ended,
        &mut begun,
    );
    let verdict = ran.verdict;
    if let Verdict::Denied(refusal) = verdict {
        return Outcome::MoveRefused(ran.place, refusal);
    }
    if any_owned(&owners, ran.left.len) {
        return Outcome::Refused(Refusal::TransactionOpen);
    }
    reordered(
        table,
        starts,
        state,
        log,
        wanted,
        &members,
        &ended,
        &mut owners,
        &mut items,
        &mut origins,
        out,
        target,
    )
}

// The arrays that grow with the log are small for a short one: it would cost more to clear large ones
// than to serialize it.
pub fn serialize_log<'a>(
    table: &'a [u32],
    starts: &'a [u32; 65],
    state: &'a [u32],
    log: &'a [u32],
    target: &mut [u32],
) -> Outcome
    requires { Tested table.now starts.now state.now log.now target.old }
    ensures { SerializedAs table.now state.now log.now target.old target.new result }
{
    if count_of(log) <= 128 {
        let mut wanted = [0u16; 512];
        let mut out = [0u32; 641];
        return serialized(table, starts, state, log, &mut wanted, &mut out, target);
    }
    let mut wanted = [0u16; 4096];
    let mut out = [0u32; 5121];
    serialized(table, starts, state, log, &mut wanted, &mut out, target)
}
